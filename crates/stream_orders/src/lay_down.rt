// Laying a stream down: the first of its refusals that applies.
ghost use Rattle.std.specs.Prelude.{◌≡◌};
ghost use Rattle.refusals.specs.Numbers.{number};
ghost use Rattle.refusals.specs.Refusals.{lay_down_order};

use refusals::{Answer, Refusal, refuse_if};

pub fn first(state: bool, room: bool) -> Answer
    ensures { number result ≡ lay_down_order state room }
{
    refuse_if(state, Refusal::BadState)?;
    refuse_if(room, Refusal::NoRoom)
}
