// Runs of bytes: a tail that is one byte over and over, a tail of zeros, some bytes read from a slice, and some put into one.
#![tactic(auto)]

ghost use Rattle.std.specs.Prelude.{◌≡◌, ◌++◌, ◌+◌, ◌≤◌, length, take, drop};
ghost use Rattle.laws.specs.Places.{part};
ghost use Rattle.runs.specs.All.{all};
ghost use Rattle.runs.specs.Zeros.{zeros};

// Is every byte from a place on this one? It looks at all of them, which compiles to wide ors.
pub fn all_from(bytes: &[u8], from: usize, byte: u8) -> bool
    ensures { result ≡ all byte (drop from bytes.now) }
{
    let mut any: u8 = 0;
    for i in from..bytes.len() {
        any |= bytes[i] ^ byte;
    }
    any == 0
}

// Is every byte from a place on zero?
pub fn zero_from(bytes: &[u8], from: usize) -> bool
    ensures { result ≡ zeros (drop from bytes.now) }
{
    all_from(bytes, from, 0)
}

// The N bytes from a place on.
pub fn part<const N: usize>(bytes: &[u8], at: usize) -> [u8; N]
    requires { at + N ≤ length bytes.now }
    ensures taken { result ≡ take N (drop at bytes.now) }
    ensures placed { result ≡ part 0 at N bytes.now }
{
    let mut part = [0u8; N];
    part.copy_from_slice(&bytes[at..at + N]);
    part
}

// N bytes put into the output at a place.
pub fn store<const N: usize>(out: &mut [u8], at: usize, part: [u8; N])
    requires { at + N ≤ length out.old }
    ensures { out.new ≡ take at out.old ++ part.entry ++ drop (at + N) out.old }
{
    out[at..at + N].copy_from_slice(&part);
}
