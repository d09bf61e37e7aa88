// The C entry: the first of its refusals that applies.
ghost use Rattle.std.specs.Prelude.{◌≡◌};
ghost use Rattle.refusals.specs.Numbers.{number};
ghost use Rattle.refusals.specs.Refusals.{entry_order};

use refusals::{Answer, Refusal, refuse_if};

pub fn first(cipher: bool, length: bool, blank: bool, dir: bool, block: bool, room: bool) -> Answer
    ensures { number result ≡ entry_order cipher length blank dir block room }
{
    refuse_if(cipher, Refusal::UnknownCipher)?;
    refuse_if(length, Refusal::KeyLength)?;
    refuse_if(blank, Refusal::BlankKey)?;
    refuse_if(dir, Refusal::Direction)?;
    refuse_if(block, Refusal::BlockLength)?;
    refuse_if(room, Refusal::NoRoom)
}
