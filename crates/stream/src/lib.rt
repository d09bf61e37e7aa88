// The CBC stream: start, feed and finish (01, 'The two records' and 'Refusal numbers').
#![tactic(auto)]

use cipher::Schedule;
use refusals::Answer;

mod blocks;
pub mod state;

ghost use Rattle.std.specs.Prelude.{◌≡◌};
ghost use Rattle.refusals.specs.Numbers.{number};
ghost use Rattle.stream.specs.State.{fresh, zero_stream};
ghost use Rattle.stream.specs.Calls.{started_as, fed_as};
ghost use Rattle.stream.specs.Numbered.{started_in_numbers, fed_in_numbers, finished_in_numbers};
ghost use Rattle.stream.specs.Promises.{Starts, Feeds, Finishes};

#[derive(Clone, Copy)]
pub struct Stream {
    pub schedule: Schedule,
    pub direction: u8,
    pub count: u64,
    pub chain: [u8; 16],
    pub held: [u8; 15],
    pub closed: bool,
}

// No Results, these three: a refused call too gives a state and a count beside its answer, which `Starts`, `Feeds` and
// `Finishes` promise. `Started<u8>` has a number for its answer.
#[derive(Clone, Copy)]
pub struct Started<A = Answer> {
    pub answer: A,
    pub stream: Stream,
}

#[derive(Clone, Copy)]
pub struct Fed {
    pub answer: Answer,
    pub written: u64,
    pub next: Stream,
}

#[derive(Clone, Copy)]
pub struct Finished {
    pub answer: Answer,
    pub next: Stream,
}

// A stream with nothing accepted yet.
fn fresh(schedule: Schedule, direction: u8, first: [u8; 16]) -> Stream
    ensures { result ≡ fresh schedule direction first }
{
    Stream {
        schedule,
        direction,
        count: 0,
        chain: first,
        held: [0u8; 15],
        closed: false,
    }
}

// A refused start, with the all-zero stream. Its answer is the caller's, of any type: an `Answer`, or a number.
pub fn not_started<A>(answer: A) -> Started<A>
    ensures { result ≡ started_as answer zero_stream }
{
    Started {
        answer,
        stream: fresh(cipher::no_schedule(), 0, [0u8; 16]),
    }
}

fn fed_as(answer: Answer, written: u64, next: Stream) -> Fed
    ensures { fed_in_numbers result ≡ fed_as (number answer) written next }
{
    Fed {
        answer,
        written,
        next,
    }
}

impl Stream {
    // The most bytes that a stream accepts.
    pub const LIMIT: u64 = pieces::LIMIT;

    // A fresh stream under a schedule, in a direction, from a first block.
    pub fn start(schedule: Schedule, direction: u64, first: &[u8]) -> Started
        ensures { Starts schedule direction first.now (started_in_numbers result) }
    {
        if let Err(refusal) = state::start_refusal(&schedule, direction, first.len()) {
            return not_started(Err(refusal));
        }
        Started {
            answer: Ok(()),
            stream: fresh(schedule, (direction % 256) as u8, runs::part(first, 0)),
        }
    }

    // A piece: its whole blocks to the front of the output, the bytes behind them held.
    pub fn feed(self, piece: &[u8], out: &mut [u8]) -> Fed
        ensures { Feeds self piece.now out.old (fed_in_numbers result) out.new }
    {
        let mut next = self;
        if let Err(refusal) = state::piece_refusal(&next, piece.len(), out.len()) {
            return fed_as(Err(refusal), 0, next);
        }
        let kept = (next.count % 16) as usize;
        let n = (kept + piece.len()) / 16;
        if n > 0 {
            let last = blocks::run(next, piece, out, n);
            next.chain = last;
        }
        let mut held = next.held;
        pieces::held::left_over(&mut held, kept, piece, n);
        next.held = held;
        next.count += piece.len() as u64;
        fed_as(Ok(()), (16 * n) as u64, next)
    }

    // The end of the message: closed, where no byte is held.
    pub fn finish(self) -> Finished
        ensures { Finishes self (finished_in_numbers result) }
    {
        let answer = state::finish_refusal(&self);
        let mut next = self;
        if answer.is_ok() {
            next.closed = true;
        }
        Finished { answer, next }
    }
}
