// Start: the first of its refusals that applies.
ghost use Rattle.std.specs.Prelude.{◌≡◌};
ghost use Rattle.refusals.specs.Numbers.{number};
ghost use Rattle.refusals.specs.Refusals.{start_order};

use refusals::{Answer, Refusal, refuse_if};

pub fn first(schedule: bool, dir: bool, block: bool) -> Answer
    ensures { number result ≡ start_order schedule dir block }
{
    refuse_if(schedule, Refusal::BadSchedule)?;
    refuse_if(dir, Refusal::Direction)?;
    refuse_if(block, Refusal::FirstBlockLength)
}
