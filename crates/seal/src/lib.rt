// The seal of a message, CMAC, in pieces: start, feed, write and check (02, request 3).
#![tactic(auto)]

use cipher::Schedule;
use refusals::{Answer, Refusal};

mod blocks;
mod state;

ghost use Rattle.std.specs.Prelude.{◌≡◌};
ghost use Rattle.refusals.specs.Numbers.{number, number_of};
ghost use Rattle.seal.specs.State.{fresh, zero_seal};
ghost use Rattle.seal.specs.Calls.{started_as, fed_as, checked_as};
ghost use Rattle.seal.specs.Numbered.{started_in_numbers, fed_in_numbers, written_in_numbers, checked_in_numbers};
ghost use Rattle.seal.specs.Promises.{StartsSeal, FeedsSeal, WritesSeal, ChecksSeal};

#[derive(Clone, Copy)]
pub struct Seal {
    pub schedule: Schedule,
    pub count: u64,
    pub chain: [u8; 16],
    pub held: [u8; 16],
    pub closed: bool,
}

// No Results, these four: a refused call too gives a state, and no, beside its answer, which `StartsSeal`, `FeedsSeal`,
// `WritesSeal` and `ChecksSeal` promise.
#[derive(Clone, Copy)]
pub struct Started {
    pub answer: Answer,
    pub seal: Seal,
}

#[derive(Clone, Copy)]
pub struct Fed {
    pub answer: Answer,
    pub next: Seal,
}

#[derive(Clone, Copy)]
pub struct Written {
    pub answer: Answer,
    pub next: Seal,
}

#[derive(Clone, Copy)]
pub struct Checked {
    pub answer: Answer,
    pub yes: bool,
    pub next: Seal,
}

// A seal with nothing accepted yet.
fn fresh(schedule: Schedule) -> Seal
    ensures { result ≡ fresh schedule }
{
    Seal {
        schedule,
        count: 0,
        chain: [0u8; 16],
        held: [0u8; 16],
        closed: false,
    }
}

// A refused start, with the all-zero seal.
fn not_started(refusal: Refusal) -> Started
    ensures { started_in_numbers result ≡ started_as (number_of refusal) zero_seal }
{
    Started {
        answer: Err(refusal),
        seal: fresh(cipher::no_schedule()),
    }
}

fn fed_as(answer: Answer, next: Seal) -> Fed
    ensures { fed_in_numbers result ≡ fed_as (number answer) next }
{
    Fed { answer, next }
}

fn checked_as(answer: Answer, yes: bool, next: Seal) -> Checked
    ensures { checked_in_numbers result ≡ checked_as (number answer) yes next }
{
    Checked { answer, yes, next }
}

impl Seal {
    // The most bytes that a seal accepts: as many as a stream.
    pub const LIMIT: u64 = pieces::LIMIT;

    // A fresh seal under a schedule.
    pub fn start(schedule: Schedule) -> Started
        ensures { StartsSeal schedule (started_in_numbers result) }
    {
        if let Err(refusal) = state::start_refusal(&schedule) {
            return not_started(refusal);
        }
        Started {
            answer: Ok(()),
            seal: fresh(schedule),
        }
    }

    // A piece: every block but the last goes into the chain, and the last is held.
    pub fn feed(self, piece: &[u8]) -> Fed
        ensures { FeedsSeal self piece.now (fed_in_numbers result) }
    {
        let mut next = self;
        if let Err(refusal) = state::piece_refusal(&next, piece.len()) {
            return fed_as(Err(refusal), next);
        }
        let kept = cmac_steps::count::held_number(next.count);
        let n = cmac_steps::count::pushed(next.count, piece.len());
        let mut held = next.held;
        pieces::held::left_over(&mut held, kept, piece, n);
        if n > 0 {
            let last = blocks::run(next, kept, piece, n);
            next.chain = last;
        }
        next.held = held;
        next.count += piece.len() as u64;
        fed_as(Ok(()), next)
    }

    // The end of the message: its seal to the front of the output, and the state closed.
    pub fn write(self, out: &mut [u8]) -> Written
        ensures { WritesSeal self out.old (written_in_numbers result) out.new }
    {
        if let Err(refusal) = state::write_refusal(&self, out.len()) {
            return Written {
                answer: Err(refusal),
                next: self,
            };
        }
        let seal = blocks::sealed(self);
        runs::store(out, 0, seal);
        let mut next = self;
        next.closed = true;
        Written {
            answer: Ok(()),
            next,
        }
    }

    // The end of the message: whether the given bytes are its seal, and the state closed, whatever the answer.
    pub fn check(self, given: &[u8]) -> Checked
        ensures { ChecksSeal self given.now (checked_in_numbers result) }
    {
        if let Err(refusal) = state::check_refusal(&self) {
            return checked_as(Err(refusal), false, self);
        }
        let seal = blocks::sealed(self);
        let yes = cmac_steps::given::is_seal(given, seal);
        let mut ended = self;
        ended.closed = true;
        checked_as(Ok(()), yes, ended)
    }
}
