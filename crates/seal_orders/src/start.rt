// The start of a seal: the first of its refusals that applies.
ghost use Rattle.std.specs.Prelude.{◌≡◌};
ghost use Rattle.refusals.specs.Numbers.{number};
ghost use Rattle.refusals.specs.Refusals.{seal_start_order};

use refusals::{Answer, Refusal, refuse_if};

pub fn first(schedule: bool) -> Answer
    ensures { number result ≡ seal_start_order schedule }
{
    refuse_if(schedule, Refusal::BadSchedule)
}
