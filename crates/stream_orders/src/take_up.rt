// Taking a stream up: the first of its refusals that applies.
ghost use Rattle.std.specs.Prelude.{◌≡◌};
ghost use Rattle.refusals.specs.Numbers.{number};
ghost use Rattle.refusals.specs.Refusals.{take_up_order};

use refusals::{Answer, Refusal, refuse_if};

pub fn first(schedule: bool, record: bool, other: bool) -> Answer
    ensures { number result ≡ take_up_order schedule «record» other }
{
    refuse_if(schedule, Refusal::BadSchedule)?;
    refuse_if(record, Refusal::BadStreamRecord)?;
    refuse_if(other, Refusal::OtherSchedule)
}
