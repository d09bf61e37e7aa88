// Finish: the first of its refusals that applies.
ghost use Rattle.std.specs.Prelude.{◌≡◌};
ghost use Rattle.refusals.specs.Numbers.{number};
ghost use Rattle.refusals.specs.Refusals.{finish_order};

use refusals::{Answer, Refusal, refuse_if};

pub fn first(state: bool, ended: bool, held: bool) -> Answer
    ensures { number result ≡ finish_order state ended held }
{
    refuse_if(state, Refusal::BadState)?;
    refuse_if(ended, Refusal::Closed)?;
    refuse_if(held, Refusal::BytesHeld)
}
