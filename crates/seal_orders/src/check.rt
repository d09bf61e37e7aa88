// Checking a seal: the first of its refusals that applies.
ghost use Rattle.std.specs.Prelude.{◌≡◌};
ghost use Rattle.refusals.specs.Numbers.{number};
ghost use Rattle.refusals.specs.Refusals.{seal_check_order};

use refusals::{Answer, Refusal, refuse_if};

pub fn first(state: bool, ended: bool) -> Answer
    ensures { number result ≡ seal_check_order state ended }
{
    refuse_if(state, Refusal::BadState)?;
    refuse_if(ended, Refusal::Closed)
}
