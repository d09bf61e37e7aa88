// The whole blocks among the held bytes and a piece, through the chain.
ghost use Rattle.std.specs.Prelude.{◌≡◌, true, ◌+◌, ◌*◌, ◌%◌, ◌≤◌, ◌<◌, length};
ghost use Rattle.cbc.specs.Cbc.{Chained};
ghost use Rattle.cipher_numbers.specs.Ciphers.{is_length};
ghost use Rattle.cipher.specs.Schedule.{enciphered, deciphered};
ghost use Rattle.stream.specs.State.{at_hand};

use crate::Stream;
use blocks_lent::Way;
use cipher_blocks::chain;
use pieces::held::first_block;

// n of them, at least one, to the front of the output. The chain block behind them.
pub fn run(s: Stream, piece: &[u8], out: &mut [u8], n: usize) -> [u8; 16]
    requires { (is_length s.schedule.cipher s.schedule.key_length ≡ true) × (0 < n)
        × (16 * n ≤ s.count % 16 + length piece.now) × (16 * n ≤ length out.old) }
    ensures { Chained (enciphered s.schedule) (deciphered s.schedule) s.direction s.chain (at_hand s piece.now)
        out.old n result out.new }
{
    let kept = (s.count % 16) as usize;
    let held = s.held;
    let first = first_block(&held, kept, piece);
    let way = Way {
        cipher: s.schedule.cipher as u64,
        length: s.schedule.key_length as usize,
        direction: s.direction as u64,
    };
    let before = s.chain;
    let from = 16 - kept;
    chain::run(
        &s.schedule.round_keys,
        way,
        before,
        first,
        &piece[from..],
        out,
        n,
    )
}
