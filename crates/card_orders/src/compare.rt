// A comparison: the first of its refusals that applies.
ghost use Rattle.std.specs.Prelude.{◌≡◌};
ghost use Rattle.refusals.specs.Numbers.{number};
ghost use Rattle.refusals.specs.Refusals.{compare_order};

use refusals::{Answer, Refusal, refuse_if};

pub fn first(one: bool, two: bool, room: bool) -> Answer
    ensures { number result ≡ compare_order one two room }
{
    refuse_if(one, Refusal::BadCard)?;
    refuse_if(two, Refusal::BadCard)?;
    refuse_if(room, Refusal::NoRoom)
}
