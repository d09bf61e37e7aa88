// One block: the first of its refusals that applies.
ghost use Rattle.std.specs.Prelude.{◌≡◌};
ghost use Rattle.refusals.specs.Numbers.{number};
ghost use Rattle.refusals.specs.Refusals.{block_order};

use refusals::{Answer, Refusal, refuse_if};

pub fn first(schedule: bool, block: bool, room: bool) -> Answer
    ensures { number result ≡ block_order schedule block room }
{
    refuse_if(schedule, Refusal::BadSchedule)?;
    refuse_if(block, Refusal::BlockLength)?;
    refuse_if(room, Refusal::NoRoom)
}
