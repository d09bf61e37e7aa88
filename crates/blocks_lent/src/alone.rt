// Blocks each by itself.
ghost use Rattle.std.specs.Prelude.{◌≡◌, ◌++◌, ◌*◌, ◌≤◌, length, drop};
ghost use Rattle.cbc.specs.Cbc.{blocks, join};
ghost use Rattle.blocks_lent.specs.Ways.{each};

use crate::BlockFunction;

// The first n blocks of the input, each by itself, to the front of the output.
pub fn run_with<F: BlockFunction>(f: &F, keys: &[u8; 288], input: &[u8], out: &mut [u8], n: usize)
    requires { (16 * n ≤ length input.now) × (16 * n ≤ length out.old) }
    ensures { out.new ≡ join (each (F.of f.now keys.now) (blocks n input.now)) ++ drop (16 * n) out.old }
{
    for j in 0..n {
        let at = 16 * j;
        let x = runs::part(input, at);
        let y = f.block(keys, x);
        runs::store(out, at, y);
    }
}
