// A number of several bytes, the highest first, among other bytes.
ghost use Rattle.std.specs.Prelude.{◌≡◌, ◌++◌, ◌+◌, ◌≤◌, length, take, drop};
ghost use Rattle.stream_layout.specs.Number.{bytes_in, number_of};

// Its bytes, put in from a place on; what they are too few for is left out.
pub fn put(bytes: &mut [u8], at: usize, width: usize, n: u64)
    requires { at + width ≤ length bytes.old }
    ensures { bytes.new ≡ take at bytes.old ++ bytes_in width n ++ drop (at + width) bytes.old }
{
    let mut rest = n;
    for k in (0..width).rev() {
        bytes[at + k] = (rest % 256) as u8;
        rest /= 256;
    }
}

// The number of the bytes from a place on.
pub fn at(bytes: &[u8], from: usize, width: usize) -> u64
    requires { (from + width ≤ length bytes.now) × (width ≤ 8) }
    ensures { result ≡ number_of (take width (drop from bytes.now)) }
{
    let mut n: u64 = 0;
    for i in 0..width {
        n = n * 256 + bytes[from + i] as u64;
    }
    n
}
