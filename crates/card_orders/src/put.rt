// A put: the first of its refusals that applies.
ghost use Rattle.std.specs.Prelude.{◌≡◌};
ghost use Rattle.refusals.specs.Numbers.{number};
ghost use Rattle.refusals.specs.Refusals.{put_order};

use refusals::{Answer, Refusal, refuse_if};

pub fn first(card: bool, record: bool, slot: bool) -> Answer
    ensures { number result ≡ put_order card «record» slot }
{
    refuse_if(card, Refusal::BadCard)?;
    refuse_if(record, Refusal::BadRecord)?;
    refuse_if(slot, Refusal::NoSlot)
}
