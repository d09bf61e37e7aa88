// The sum of four words, each turned one byte further to the right than the one before: a circulant matrix times four bytes, by words of its first column.
ghost use Rattle.std.specs.Prelude.{◌≡◌};
ghost use Rattle.hierocrypt3_steps.specs.code.Columns.{turned_sum};

use words::word::{bytes, rotated};

pub fn turned_sum(x: u32, y: u32, z: u32, w: u32) -> [u8; 4]
    ensures { result ≡ turned_sum x y z w }
{
    bytes(x ^ rotated(y, 24) ^ rotated(z, 16) ^ rotated(w, 8))
}
