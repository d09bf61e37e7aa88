// A piece of a seal: the first of its refusals that applies.
ghost use Rattle.std.specs.Prelude.{◌≡◌};
ghost use Rattle.refusals.specs.Numbers.{number};
ghost use Rattle.refusals.specs.Refusals.{seal_piece_order};

use refusals::{Answer, Refusal, refuse_if};

pub fn first(state: bool, ended: bool, limit: bool) -> Answer
    ensures { number result ≡ seal_piece_order state ended limit }
{
    refuse_if(state, Refusal::BadState)?;
    refuse_if(ended, Refusal::Closed)?;
    refuse_if(limit, Refusal::OverLimit)
}
