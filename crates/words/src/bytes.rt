// Bytes xored with bytes.
ghost use Rattle.std.specs.Prelude.{◌≡◌};
ghost use Rattle.laws.specs.Bytes.{xor_l};

// N bytes xored with N.
pub fn xor<const N: usize>(a: [u8; N], b: [u8; N]) -> [u8; N]
    ensures { result ≡ xor_l N a.entry b.entry }
{
    let mut x = [0u8; N];
    for i in 0..N {
        x[i] = a[i] ^ b[i];
    }
    x
}
