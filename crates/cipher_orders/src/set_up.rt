// Set-up: the first of its refusals that applies.
ghost use Rattle.std.specs.Prelude.{◌≡◌};
ghost use Rattle.refusals.specs.Numbers.{number};
ghost use Rattle.refusals.specs.Refusals.{set_up_order};

use refusals::{Answer, Refusal, refuse_if};

pub fn first(cipher: bool, length: bool, blank: bool) -> Answer
    ensures { number result ≡ set_up_order cipher length blank }
{
    refuse_if(cipher, Refusal::UnknownCipher)?;
    refuse_if(length, Refusal::KeyLength)?;
    refuse_if(blank, Refusal::BlankKey)
}
