// What host/bench measures: blocks each by themselves, and a message through a stream in one piece and byte by byte.
#![tactic(auto)]

ghost use Rattle.std.specs.Prelude.{◌≡◌};
ghost use Rattle.speed.specs.Works.{begun, WorksBlocks, WorksMessage, WorksBytes};

use blocks_lent::Way;
use cipher_blocks::alone;
use refusals::{Refusal, number};
use stream::Stream;

// The blocks of the input, each by itself, in a direction.
pub fn tlilcueyoh_speed_blocks(
    cipher: u64,
    direction: u64,
    key: &[u8],
    input: &[u8],
    output: &mut [u8],
) -> u64
    ensures { WorksBlocks cipher direction key.now input.now output.old result output.new }
{
    if let Err(no) = entry::refusal(cipher, direction, key, 16, 16) {
        return no.number() as u64;
    }
    if input.len() % 16 != 0 {
        return Refusal::BlockLength.number() as u64;
    }
    if output.len() < input.len() {
        return Refusal::NoRoom.number() as u64;
    }
    let keys = cipher_numbers::round_keys(cipher, key);
    let way = Way {
        cipher,
        length: key.len(),
        direction,
    };
    alone::run(&keys, way, input, output, input.len() / 16);
    0
}

// The stream of set-up and start, whether they refuse or not.
fn opened(cipher: u64, direction: u64, key: &[u8], first: &[u8]) -> Stream
    ensures { result ≡ begun cipher direction key.now first.now }
{
    let made = cipher::set_up(cipher, key);
    let started = Stream::start(made.schedule, direction, first);
    started.stream
}

// The input as one piece of a fresh stream.
pub fn tlilcueyoh_speed_cbc(
    cipher: u64,
    direction: u64,
    key: &[u8],
    first: &[u8],
    input: &[u8],
    output: &mut [u8],
) -> u64
    ensures { WorksMessage cipher direction key.now first.now input.now output.old result output.new }
{
    let stream = opened(cipher, direction, key, first);
    let fed = stream.feed(input, output);
    number(fed.answer) as u64
}

// The input in pieces of one byte, all to the front of the output, until one is refused.
pub fn tlilcueyoh_speed_bytes(
    cipher: u64,
    direction: u64,
    key: &[u8],
    first: &[u8],
    input: &[u8],
    output: &mut [u8],
) -> u64
    ensures { WorksBytes cipher direction key.now first.now input.now output.old result output.new }
{
    let mut stream = opened(cipher, direction, key, first);
    for i in 0..input.len() {
        let fed = stream.feed(&input[i..i + 1], output);
        if let Err(no) = fed.answer {
            return no.number() as u64;
        }
        stream = fed.next;
    }
    0
}
