// What C calls: one block, on numbers and byte slices (01, 'What is built'; 02, request 7). No schedule record is made, tested or copied for it.
#![tactic(auto)]

ghost use Rattle.std.specs.Prelude.{◌≡◌};
ghost use Rattle.refusals.specs.Numbers.{number};
ghost use Rattle.entry.specs.Entry.{entry_refusal, WorksForC, TellsVersion};

use blocks_lent::Way;
use cipher_blocks::alone;
use cipher_numbers::blank;
use refusals::Answer;

// Whether a call is done, with this key and these lengths of block and output.
pub fn refusal(cipher: u64, direction: u64, key: &[u8], block: usize, room: usize) -> Answer
    ensures { number result ≡ entry_refusal cipher direction key.now block room }
{
    let unknown = !cipher_numbers::is_cipher(cipher);
    let length = !cipher_numbers::is_length(cipher, key.len());
    let blank = blank::is_legal_and_blank(cipher, key);
    let undirected = !cipher_numbers::is_direction(direction);
    cipher_orders::entry::first(unknown, length, blank, undirected, block != 16, room < 16)
}

// One block enciphered (direction 1) or deciphered (2) under a key, to the front of the output. 0 is done.
pub fn tlilcueyoh_block(
    cipher: u64,
    direction: u64,
    key: &[u8],
    input: &[u8],
    output: &mut [u8],
) -> u64
    ensures { WorksForC cipher direction key.now input.now output.old result output.new }
{
    if let Err(no) = refusal(cipher, direction, key, input.len(), output.len()) {
        return no.number() as u64;
    }
    let keys = cipher_numbers::round_keys(cipher, key);
    let way = Way {
        cipher,
        length: key.len(),
        direction,
    };
    alone::run(&keys, way, input, output, 1);
    0
}

// The version of the call and its answers, for a host to compare with its header's.
pub fn tlilcueyoh_version() -> u64
    ensures { TellsVersion result }
{
    3
}
