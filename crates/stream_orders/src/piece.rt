// A piece: the first of its refusals that applies.
ghost use Rattle.std.specs.Prelude.{◌≡◌};
ghost use Rattle.refusals.specs.Numbers.{number};
ghost use Rattle.refusals.specs.Refusals.{piece_order};

use refusals::{Answer, Refusal, refuse_if};

pub fn first(state: bool, ended: bool, limit: bool, room: bool) -> Answer
    ensures { number result ≡ piece_order state ended limit room }
{
    refuse_if(state, Refusal::BadState)?;
    refuse_if(ended, Refusal::Closed)?;
    refuse_if(limit, Refusal::OverLimit)?;
    refuse_if(room, Refusal::NoRoom)
}
