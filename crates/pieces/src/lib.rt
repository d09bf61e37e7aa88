// A piece behind so many bytes: the limit, the room that its blocks need, and the held bytes with the piece behind them. No state record is known here.
#![tactic(auto)]

pub mod held;

ghost use Rattle.std.specs.Prelude.{◌≡◌, ◌+◌, ◌*◌, ltb};
ghost use Rattle.cbc.specs.Cbc.{completed};
ghost use Rattle.pieces.specs.Pieces.{limit};

// The most bytes that are accepted.
pub const LIMIT: u64 = 1048576;

// Do n more bytes go over the limit?
pub fn over_limit(count: u64, n: usize) -> bool
    ensures { result ≡ ltb limit (count + n) }
{
    LIMIT < count.saturating_add(n as u64)
}

// Is there less room than the blocks take that n more bytes complete?
pub fn short_of_room(count: u64, n: usize, room: usize) -> bool
    ensures { result ≡ ltb room (16 * completed count n) }
{
    let kept = (count % 16) as usize;
    room / 16 < n / 16 + (kept + n % 16) / 16
}
