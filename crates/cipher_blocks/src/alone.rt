// Blocks under a cipher's round keys, each by itself. One block is worked by this, and a cipher's speed is measured by it.
ghost use Rattle.std.specs.Prelude.{◌≡◌, ◌++◌, ◌*◌, ◌≤◌, length, drop};
ghost use Rattle.cbc.specs.Cbc.{blocks, join};
ghost use Rattle.blocks_lent.specs.Ways.{F, each, LegalWay};

use blocks_lent::Way;
use blocks_lent::alone::run_with;
use blocks_lent::ciphers::{Deciphering, Enciphering};
use cipher_numbers::ENCIPHER;
use hierocrypt3_tables::forward::Forward;
use hierocrypt3_tables::inverse::Inverse;

// The first n blocks of the input, each by itself, to the front of the output.
pub fn run(keys: &[u8; 288], way: Way, input: &[u8], out: &mut [u8], n: usize)
    requires { LegalWay way × (16 * n ≤ length input.now) × (16 * n ≤ length out.old) }
    ensures { out.new ≡ join (each (F way keys.now) (blocks n input.now)) ++ drop (16 * n) out.old }
{
    if way.direction == ENCIPHER {
        by_number!(way, Forward, Enciphering, e => run_with(&e, keys, input, out, n))
    } else {
        by_number!(way, Inverse, Deciphering, d => run_with(&d, keys, input, out, n))
    }
}
