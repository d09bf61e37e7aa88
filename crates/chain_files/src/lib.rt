// A message enciphered or deciphered from file to file: read, worked and written piece by piece.
#![tactic(auto)]

ghost use Rattle.recipe_words.specs.Given.{direction_number};
ghost use Rattle.stream.specs.Numbered.{started_in_numbers};
ghost use Rattle.stream.specs.Promises.{Starts};

use cipher::Schedule;
use recipe_words::arguments::Direction;
use recipe_words::files::Source;
use recipe_words::{files, outcome, progress};
use refusals::Refusal;
use std::fs::File;
use stream::{Started, Stream};

// The places of the words that name the files.
const MESSAGE: usize = 6;

const OUTPUT: usize = 7;

fn finish(rt: &HostRuntime, to: &File, stream: Stream) {
    let done = stream.finish();
    match done.answer {
        Ok(()) => files::end(rt, to, stream.count),
        Err(refusal) => outcome::refused(rt, refusal, "message", stream.count),
    }
}

// A piece of at most 4,096 bytes; with the bytes held, up to 15 more come out. The next stream.
fn work_piece(rt: &HostRuntime, to: &mut File, stream: Stream, bytes: &[u8]) -> Option<Stream> {
    let mut out = [0u8; 4112];
    let fed = stream.feed(bytes, &mut out);
    if let Err(refusal) = fed.answer {
        outcome::refused(rt, refusal, "message", Stream::LIMIT);
        return None;
    }
    files::put(rt, to, &out[..fed.written as usize])?;
    progress::show(rt, stream.count, fed.next.count);
    Some(fed.next)
}

// What one read gives, worked. The next stream, if more may come.
fn read_piece(
    rt: &HostRuntime,
    from: &mut Source,
    to: &mut File,
    stream: Stream,
) -> Option<Stream> {
    let mut bytes = [0u8; 4096];
    let n = files::piece(rt, from, &mut bytes)?;
    if n == 0 {
        finish(rt, to, stream);
        return None;
    }
    work_piece(rt, to, stream, &bytes[..n])
}

// Each turn but the last takes a byte or more, and the stream takes LIMIT of them, so the turns suffice.
fn pieces(rt: &HostRuntime, from: &mut Source, to: &mut File, begun: Stream) {
    let mut stream = begun;
    for _ in 0..=Stream::LIMIT {
        let Some(next) = read_piece(rt, from, to, stream) else {
            break;
        };
        stream = next;
    }
    progress::wipe(rt, stream.count);
}

fn work(rt: &HostRuntime, stream: Stream) {
    let Some(mut from) = files::input(rt, MESSAGE, "message", true) else {
        return;
    };
    let Some(mut to) = files::output(rt, OUTPUT) else {
        return;
    };
    pieces(rt, &mut from, &mut to, stream);
}

// The stream begun. Where no direction is given, the call itself refuses.
fn begun(given: Option<Direction>, schedule: Schedule, first: &[u8]) -> Started
    ensures { Starts schedule (direction_number given) first.now (started_in_numbers result) }
{
    Stream::start(schedule, Direction::number(given), first)
}

// Under a schedule, from a first block.
pub fn start(rt: &HostRuntime, schedule: Schedule, first: &[u8]) {
    let begun = begun(Direction::given(rt), schedule, first);
    match begun.answer {
        Ok(()) => work(rt, begun.stream),
        Err(refusal) if refusal == Refusal::Direction => {
            outcome::refused(rt, refusal, "direction", 0)
        }
        Err(refusal) => outcome::refused(rt, refusal, "first", first.len() as u64),
    }
}
