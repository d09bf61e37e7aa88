// When a state is bad, and when a start, a piece, writing the seal or a check is refused.
ghost use Rattle.std.specs.Prelude.{◌≡◌};
ghost use Rattle.refusals.specs.Numbers.{number};
ghost use Rattle.seal.specs.State.{bad_state};
ghost use Rattle.seal.specs.Calls.{start_refusal, piece_refusal, write_refusal, check_refusal};

use crate::Seal;
use cipher::Schedule;
use refusals::Answer;

impl Seal {
    pub fn is_bad(&self) -> bool
        ensures { result ≡ bad_state self.now }
    {
        if self.schedule.is_bad() {
            return true;
        }
        if pieces::LIMIT < self.count {
            return true;
        }
        if !runs::zero_from(&self.held, cmac_steps::count::held_number(self.count)) {
            return true;
        }
        if 16 < self.count {
            return false;
        }
        !runs::zero_from(&self.chain, 0)
    }
}

// Whether a start is taken.
pub fn start_refusal(schedule: &Schedule) -> Answer
    ensures { number result ≡ start_refusal schedule.now }
{
    seal_orders::start::first(schedule.is_bad())
}

// Whether a piece of n bytes is taken.
pub fn piece_refusal(s: &Seal, n: usize) -> Answer
    ensures { number result ≡ piece_refusal s.now n }
{
    let over = pieces::over_limit(s.count, n);
    seal_orders::piece::first(s.is_bad(), s.closed, over)
}

// Whether the seal is written, with that room.
pub fn write_refusal(s: &Seal, room: usize) -> Answer
    ensures { number result ≡ write_refusal s.now room }
{
    seal_orders::write::first(s.is_bad(), s.closed, room < 16)
}

// Whether a check is made.
pub fn check_refusal(s: &Seal) -> Answer
    ensures { number result ≡ check_refusal s.now }
{
    seal_orders::check::first(s.is_bad(), s.closed)
}
