// When a state is bad, and when a start, a piece or finish is refused.
ghost use Rattle.std.specs.Prelude.{◌≡◌};
ghost use Rattle.refusals.specs.Numbers.{number};
ghost use Rattle.stream.specs.State.{bad_state};
ghost use Rattle.stream.specs.Calls.{start_refusal, piece_refusal, finish_refusal};

use crate::Stream;
use cipher::Schedule;
use refusals::Answer;

impl Stream {
    pub fn is_bad(&self) -> bool
        ensures { result ≡ bad_state self.now }
    {
        if self.schedule.is_bad() {
            return true;
        }
        if !cipher_numbers::is_direction(self.direction as u64) {
            return true;
        }
        if pieces::LIMIT < self.count {
            return true;
        }
        let n = (self.count % 16) as usize;
        if !runs::zero_from(&self.held, n) {
            return true;
        }
        self.closed && n != 0
    }
}

// Whether a start is taken, with a first block of n bytes.
pub fn start_refusal(schedule: &Schedule, direction: u64, n: usize) -> Answer
    ensures { number result ≡ start_refusal schedule.now direction n }
{
    let undirected = !cipher_numbers::is_direction(direction);
    stream_orders::start::first(schedule.is_bad(), undirected, n != 16)
}

// Whether a piece of n bytes is taken, with that room.
pub fn piece_refusal(s: &Stream, n: usize, room: usize) -> Answer
    ensures { number result ≡ piece_refusal s.now n room }
{
    let over = pieces::over_limit(s.count, n);
    let short = pieces::short_of_room(s.count, n, room);
    stream_orders::piece::first(s.is_bad(), s.closed, over, short)
}

// Whether finish is done.
pub fn finish_refusal(s: &Stream) -> Answer
    ensures { number result ≡ finish_refusal s.now }
{
    stream_orders::finish::first(s.is_bad(), s.closed, s.count % 16 != 0)
}
