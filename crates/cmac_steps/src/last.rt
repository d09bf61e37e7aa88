// The last block as it goes into the chain, with the subkeys that it takes.
ghost use Rattle.std.specs.Prelude.{◌≡◌, true, ◌+◌, ◌*◌, ◌/◌, ◌%◌, ◌≤◌, take, drop, get_or};
ghost use Rattle.runs.specs.Zeros.{zeros};
ghost use Rattle.cmac.specs.Cmac as cmac;

// A byte shifted up by one bit, with the highest bit of the byte behind it.
fn up(a: u8, behind: u8) -> u8
    ensures { result ≡ a % 128 * 2 + behind / 128 % 2 }
{
    a % 128 * 2 + behind / 128
}

// The byte at a place of a block, or 0 behind it.
fn byte(x: [u8; 16], i: usize) -> u8
    ensures { result ≡ get_or x i 0 }
{
    if i < 16 { x[i] } else { 0 }
}

// A block shifted up by one bit.
fn shl1(x: [u8; 16]) -> [u8; 16]
    ensures { result ≡ cmac.shl1 x }
{
    let mut y = [0u8; 16];
    for i in 0..16 {
        y[i] = up(byte(x, i), byte(x, i + 1));
    }
    y
}

// A block doubled.
fn doubled(x: [u8; 16]) -> [u8; 16]
    ensures { result ≡ cmac.doubled x }
{
    let y = shl1(x);
    if x[0] < 128 {
        return y;
    }
    let r128: [u8; 16] = [0, 0, 0, 0, 0, 0, 0, 0, 0, 0, 0, 0, 0, 0, 0, 135];
    words::bytes::xor(y, r128)
}

// M_n of the n held bytes, with K1 and K2 made of L.
pub fn masked(l: [u8; 16], held: [u8; 16], n: usize) -> [u8; 16]
    requires { (n ≤ 16) × (zeros (drop n held) ≡ true) }
    ensures { result ≡ cmac.last (cmac.doubled l) (cmac.doubled (cmac.doubled l)) (take n held) }
{
    let k1 = doubled(l);
    let k2 = doubled(k1);
    if n == 16 {
        return words::bytes::xor(k1, held);
    }
    let mut m = held;
    m[n] = 128;
    words::bytes::xor(k2, m)
}
