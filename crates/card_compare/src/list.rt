// The list in bytes: of each word the high byte first, so recipe, segment, mark.
ghost use Rattle.std.specs.Prelude.{◌≡◌, ◌++◌, ◌*◌, ◌≤◌, length, drop};
ghost use Rattle.laws.specs.Bytes.{bytes_of};

use words::word;

// The list at the front of the output.
pub fn write(list: &[u32], out: &mut [u8])
    requires { length list.now * 4 ≤ length out.old }
    ensures { out.new ≡ bytes_of list.now ++ drop (length list.now * 4) out.old }
{
    for i in 0..list.len() {
        runs::store(out, i * 4, word::bytes(list[i]));
    }
}
