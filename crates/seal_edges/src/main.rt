// The edge cases of 02, request 3, for every cipher, run and shown: each call with its answer, and the bytes of its output afterwards.
#![tactic(auto)]

ghost use Rattle.std.specs.Prelude.{◌<◌, ◌^◌};

use cipher::Schedule;
use edge_words::{Hex, front, line, say};
use refusals::number;
use seal::{Fed, Seal};

// How many bytes are held at a count.
fn held(count: u64) -> u64 {
    if count == 0 { 0 } else { (count - 1) % 16 + 1 }
}

// A piece's answer, and how many bytes are held then.
fn show_fed(rt: &impl Print, fed: Fed) {
    let holds = held(fed.next.count);
    say(
        rt,
        format_args!(": answer {}, holds {holds}", number(fed.answer)),
    );
}

fn piece(rt: &impl Print, call: &str, seal: Seal, bytes: &[u8]) -> Seal {
    let fed = seal.feed(bytes);
    say(rt, format_args!("  {call}"));
    show_fed(rt, fed);
    line(rt, "");
    fed.next
}

// The seal into so many bytes of room, and the next state.
fn write<const ROOM: usize>(rt: &impl Print, call: &str, seal: Seal) -> Seal
    requires { ROOM < 2 ^ 63 }
{
    let mut out = [238u8; ROOM];
    let written = seal.write(&mut out);
    line(
        rt,
        format_args!(
            "{call}: answer {}, output {}",
            number(written.answer),
            Hex(&out)
        ),
    );
    written.next
}

fn check(rt: &impl Print, call: &str, seal: Seal, given: &[u8]) -> Seal {
    let checked = seal.check(given);
    let yes = if checked.yes { "yes" } else { "no" };
    line(
        rt,
        format_args!("  {call}: answer {}, {yes}", number(checked.answer)),
    );
    checked.next
}

fn at_once(rt: &impl Print, fresh: Seal, message: &[u8]) {
    let fed = fresh.feed(message);
    say(rt, format_args!("  {} bytes in one piece", message.len()));
    show_fed(rt, fed);
    write::<16>(rt, ", then the seal", fed.next);
}

fn in_pieces_of_1(fresh: Seal, message: &[u8]) -> Fed {
    let mut fed = Fed {
        answer: Ok(()),
        next: fresh,
    };
    for piece in message.chunks(1) {
        fed = fed.next.feed(piece);
    }
    fed
}

fn by_bytes(rt: &impl Print, fresh: Seal, message: &[u8]) {
    let fed = in_pieces_of_1(fresh, message);
    let n = message.len();
    say(rt, format_args!("  {n} bytes in {n} pieces of 1"));
    show_fed(rt, fed);
    write::<16>(rt, ", then the seal", fed.next);
}

fn lengths(rt: &impl Print, fresh: Seal, message: &[u8]) {
    for n in [0, 1, 15, 16, 17, 31, 32, 33] {
        at_once(rt, fresh, front(message, n));
        by_bytes(rt, fresh, front(message, n));
    }
}

fn empty_piece(rt: &impl Print, fresh: Seal) {
    let sixteen = fresh.feed(b"the message of t");
    let fed = sixteen.next.feed(b"");
    say(rt, "  16 bytes, then an empty piece");
    show_fed(rt, fed);
    write::<16>(rt, ", then the seal", fed.next);
}

fn rooms(rt: &impl Print, ready: Seal, given: &[u8]) {
    let short = write::<15>(rt, "  33 bytes, the seal into 15 of room", ready);
    let closed = write::<17>(rt, "  then into 17 of room", short);
    write::<16>(rt, "  then once more", closed);
    piece(rt, "then a piece of 1", closed, b"t");
    check(rt, "then a check of the seal", closed, front(given, 16));
}

// The given bytes are a seal and a byte after it.
fn checks(rt: &impl Print, ready: Seal, given: &[u8]) {
    check(rt, "33 bytes, a check of 0 bytes", ready, front(given, 0));
    check(rt, "33 bytes, a check of 15 bytes", ready, front(given, 15));
    let yes = check(rt, "33 bytes, a check of 16 bytes", ready, front(given, 16));
    check(rt, "then once more", yes, front(given, 16));
    check(rt, "33 bytes, a check of 17 bytes", ready, front(given, 17));
}

fn checks_of_another(rt: &impl Print, ready: Seal, given: &[u8], other: &[u8]) {
    let call = "33 bytes, a check of 16 bytes with the last bit changed";
    let no = check(rt, call, ready, front(other, 16));
    check(rt, "then the right 16 bytes", no, front(given, 16));
}

// The seal, and a byte after it.
fn given_bytes(ready: Seal) -> [u8; 17] {
    let mut given = [238u8; 17];
    ready.write(&mut given);
    given
}

fn ended(rt: &impl Print, ready: Seal) {
    let given = given_bytes(ready);
    rooms(rt, ready, &given);
    checks(rt, ready, &given);
    let mut other = given;
    other[15] ^= 1;
    checks_of_another(rt, ready, &given, &other);
}

fn million() -> [u8; 1048576] {
    [3u8; 1048576]
}

// All that a seal takes, in one piece.
fn fill(rt: &impl Print, fresh: Seal) -> Seal {
    let bytes = million();
    piece(rt, "1048576 bytes at once", fresh, &bytes)
}

fn limit(rt: &impl Print, fresh: Seal) {
    let full = fill(rt, fresh);
    piece(rt, "then 1 more", full, &[3]);
    let same = piece(rt, "then an empty piece", full, b"");
    write::<16>(rt, "  then the seal", same);
}

fn start(rt: &impl Print, call: &str, schedule: Schedule) -> Seal {
    let begun = Seal::start(schedule);
    line(
        rt,
        format_args!("  {call}: answer {}", number(begun.answer)),
    );
    begun.seal
}

// A refused schedule's start, and a piece after it.
fn refused(rt: &impl Print, cipher: u64) {
    let made = cipher::set_up(cipher, b"0123456789abcde");
    let none = start(rt, "a start under a refused schedule", made.schedule);
    piece(rt, "then a piece of 1", none, b"t");
}

fn cases(rt: &impl Print, cipher: u64) {
    line(rt, format_args!("cipher {cipher}"));
    refused(rt, cipher);
    let made = cipher::set_up(cipher, b"0123456789abcdef");
    let fresh = start(rt, "a start", made.schedule);
    let message = *b"the message of thirty-three bytes";
    lengths(rt, fresh, &message);
    empty_piece(rt, fresh);
    let ready = fresh.feed(&message);
    ended(rt, ready.next);
    limit(rt, fresh);
}

fn main(rt: HostRuntime) {
    for cipher in 1..=4 {
        cases(&rt, cipher);
    }
}
