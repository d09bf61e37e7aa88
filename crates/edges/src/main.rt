// 01's edge cases for every cipher, and 02's blank keys (request 7), run and shown: a line for each call, with its answer and the bytes of its output afterwards.
#![tactic(auto)]

ghost use Rattle.std.specs.Prelude.{◌<◌, ◌^◌};

use cipher::Schedule;
use edge_words::{Hex, front, line, say};
use refusals::number;
use stream::Stream;

fn block_under(rt: &impl Print, schedule: Schedule) {
    let mut out = [238u8; 16];
    let answer = number(cipher::encipher_block(schedule, b"sixteen letters.", &mut out));
    line(
        rt,
        format_args!("a block under it: answer {answer}, output {}", Hex(&out)),
    );
}

// A key of so many bytes, of which something is said, and a block under what it gives.
fn key_of(rt: &impl Print, cipher: u64, bytes: &str, key: &[u8]) {
    let made = cipher::set_up(cipher, key);
    say(
        rt,
        format_args!(
            "  a key of {} bytes{bytes}: answer {}; ",
            key.len(),
            number(made.answer)
        ),
    );
    block_under(rt, made.schedule);
}

fn keys(rt: &impl Print, cipher: u64) {
    let key = *b"0123456789abcdefghijklmnopqrstuvw";
    for length in [15, 16, 17, 24, 32, 33] {
        key_of(rt, cipher, "", front(&key, length));
    }
}

fn blank_keys(rt: &impl Print, cipher: u64) {
    let blank = [255u8; 32];
    for length in [15, 16, 24, 32] {
        key_of(rt, cipher, ", each ff", front(&blank, length));
    }
    key_of(rt, cipher, ", each 00", &[0u8; 16]);
    let mut key = [255u8; 16];
    key[0] = 254;
    key_of(rt, cipher, ", each ff but the first, fe", &key);
    key[0] = 255;
    key[15] = 254;
    key_of(rt, cipher, ", each ff but the last, fe", &key);
}

// A schedule that no set-up makes, and no call tests for its round keys being equal.
fn blank_schedule(rt: &impl Print, cipher: u64, used: usize) {
    let mut round_keys = [255u8; 288];
    for unused in round_keys.iter_mut().skip(used) {
        *unused = 0;
    }
    let schedule = Schedule {
        round_keys,
        cipher: (cipher % 256) as u8,
        key_length: 16,
    };
    say(rt, "  a schedule for keys of 16 bytes, each used byte ff: ");
    block_under(rt, schedule);
}

// A piece into so many bytes of room: its answer, and all of the output. The next stream.
fn piece<const ROOM: usize>(rt: &impl Print, call: &str, stream: Stream, bytes: &[u8]) -> Stream
    requires { ROOM < 2 ^ 63 }
{
    let mut out = [238u8; ROOM];
    let fed = stream.feed(bytes, &mut out);
    let answer = number(fed.answer);
    let written = fed.written;
    line(
        rt,
        format_args!(
            "  {call}: answer {answer}, writes {written}, output {}",
            Hex(&out)
        ),
    );
    fed.next
}

fn finish(rt: &impl Print, call: &str, stream: Stream) -> Stream {
    let done = stream.finish();
    line(rt, format_args!("  {call}: answer {}", number(done.answer)));
    done.next
}

fn cuts(rt: &impl Print, fresh: Stream) {
    let text = *b"the message of thirty-one bytes";
    let seven = piece::<16>(rt, "a piece of 7", fresh, &text[..7]);
    let sixteen = piece::<16>(rt, "then a piece of 9", seven, &text[7..16]);
    let closed = finish(rt, "then finish", sixteen);
    piece::<16>(rt, "then a piece of 1", closed, &text[..1]);
}

fn held_bytes(rt: &impl Print, fresh: Stream) {
    let text = *b"the message of thirty-one bytes";
    let held = piece::<16>(rt, "a piece of 31", fresh, &text);
    line(rt, format_args!("  it holds {}", held.count % 16));
    finish(rt, "then finish", held);
    piece::<16>(rt, "then a piece of 1", held, &text[..1]);
}

fn rooms(rt: &impl Print, fresh: Stream) {
    let text = *b"the message of thirty-one bytes";
    let short = piece::<15>(rt, "a piece of 16 into 15 of room", fresh, &text[..16]);
    piece::<16>(rt, "then again, into 16", short, &text[..16]);
    finish(rt, "an empty message finished", fresh);
}

fn million() -> [u8; 1048576] {
    [3u8; 1048576]
}

// All that a stream takes, in one piece.
fn fill(rt: &impl Print, fresh: Stream) -> Stream {
    let bytes = million();
    let mut out = million();
    let fed = fresh.feed(&bytes, &mut out);
    let answer = number(fed.answer);
    let written = fed.written;
    let last = Hex(&out[1048560..]);
    line(
        rt,
        format_args!(
            "  1048576 bytes at once: answer {answer}, writes {written}, the last 16 {last}"
        ),
    );
    fed.next
}

fn limit(rt: &impl Print, fresh: Stream) {
    let full = fill(rt, fresh);
    piece::<16>(rt, "then 1 more", full, &[3]);
    piece::<16>(rt, "then an empty piece", full, &[]);
    finish(rt, "then finish", full);
}

// Ciphers and directions are numbers, as the calls take them: some here are of none.
fn start(rt: &impl Print, call: &str, cipher: u64, direction: u64, first: &[u8]) -> Stream {
    let made = cipher::set_up(cipher, b"0123456789abcdef");
    let begun = Stream::start(made.schedule, direction, first);
    line(
        rt,
        format_args!("  start {call}: answer {}", number(begun.answer)),
    );
    begun.stream
}

// `used` is the number of the cipher's round key bytes, for keys of 16.
fn cases(rt: &impl Print, cipher: u64, used: usize) {
    line(rt, format_args!("cipher {cipher}"));
    keys(rt, cipher);
    blank_keys(rt, cipher);
    blank_schedule(rt, cipher, used);
    let first = *b"the first block.";
    start(rt, "in direction 3", cipher, 3, &first);
    start(rt, "in direction 257", cipher, 257, &first);
    start(rt, "from 15 bytes", cipher, 2, &first[..15]);
    let fresh = start(rt, "to encipher", cipher, 1, &first);
    cuts(rt, fresh);
    held_bytes(rt, fresh);
    rooms(rt, fresh);
    limit(rt, start(rt, "to decipher", cipher, 2, &first));
}

fn main(rt: HostRuntime) {
    for (cipher, used) in [(1, 224), (2, 256), (3, 16), (4, 16)] {
        cases(&rt, cipher, used);
    }
}
