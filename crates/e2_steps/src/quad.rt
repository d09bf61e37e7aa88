// A block as four words of 32 bits, the left byte the highest, and ⊗ and ⊘ on them (001, 'X ⊗ Y' and 'X ⊘ Y').
ghost use Rattle.std.specs.Prelude.{◌≡◌, ◌+◌, ◌-◌, ◌*◌, ◌%◌, ◌^◌, ◌≤◌, length};
ghost use Rattle.std.specs.Int.Bits.{bit_or};
ghost use Rattle.laws.specs.Bytes.{xor_l};
ghost use Rattle.laws.specs.Places.{part};
ghost use Rattle.e2_steps.specs.Steps.{inverse, times, over};
ghost use Rattle.e2_steps.specs.code.Layout.{quad_bytes};

use std::ops::BitXor;
use words::word::{put, word_at};

// A block.
#[derive(Clone, Copy)]
pub struct Quad {
    pub a: u32,
    pub b: u32,
    pub c: u32,
    pub d: u32,
}

impl Quad {
    // The block that stands in some bytes from a place on.
    pub fn load(bytes: &[u8], at: usize) -> Self
        requires { at + 16 ≤ length bytes.now }
        ensures { quad_bytes result ≡ part 0 at 16 bytes.now }
    {
        Quad {
            a: word_at(bytes, at),
            b: word_at(bytes, at + 4),
            c: word_at(bytes, at + 8),
            d: word_at(bytes, at + 12),
        }
    }

    // The bytes of a block. Not `From`, since `load`, whose pair it is, takes a place.
    pub fn store(self) -> [u8; 16]
        ensures { result ≡ quad_bytes self }
    {
        let mut r = [0u8; 16];
        put(&mut r, 0, self.a);
        put(&mut r, 4, self.b);
        put(&mut r, 8, self.c);
        put(&mut r, 12, self.d);
        r
    }

    // X ⊗ Y.
    pub fn times(self, y: Self) -> Self
        ensures { quad_bytes result ≡ times (quad_bytes self) (quad_bytes y) }
    {
        Quad {
            a: times_word(self.a, y.a),
            b: times_word(self.b, y.b),
            c: times_word(self.c, y.c),
            d: times_word(self.d, y.d),
        }
    }

    // X ⊘ Y, which undoes it.
    pub fn over(self, y: Self) -> Self
        ensures { quad_bytes result ≡ over (quad_bytes self) (quad_bytes y) }
    {
        Quad {
            a: over_word(self.a, y.a),
            b: over_word(self.b, y.b),
            c: over_word(self.c, y.c),
            d: over_word(self.d, y.d),
        }
    }
}

// X ⊕ Y.
impl BitXor for Quad {
    type Output = Self;

    ghost bitxor_gives = { λ x y r. quad_bytes r ≡ xor_l 16 (quad_bytes x) (quad_bytes y) };

    fn bitxor(self, other: Self) -> Self {
        Quad {
            a: self.a ^ other.a,
            b: self.b ^ other.b,
            c: self.c ^ other.c,
            d: self.d ^ other.d,
        }
    }
}

// The product modulo 2^32.
fn product(x: u32, y: u32) -> u32
    ensures { result ≡ x * y % 2 ^ 32 }
{
    ((x as u64) * (y as u64) % 4294967296) as u32
}

// y * (2 - z * y): if y is right in the low k bits of z's inverse, this is in the low 2k.
fn doubled(z: u32, y: u32) -> u32
    ensures { result ≡ y * (2 + (2 ^ 32 - z * y % 2 ^ 32)) % 2 ^ 32 }
{
    let minus = 4294967296 - (product(z, y) as u64);
    product(y, ((2 + minus) % 4294967296) as u32)
}

// The inverse of z modulo 2^32, by steps that double the number of right low bits. An even z has none, and the power that defines it is 0 there.
fn inverse(z: u32) -> u32
    ensures { result ≡ inverse z }
{
    if z % 2 == 0 {
        return 0;
    }
    let right4 = product(3, z) ^ 2;
    let right8 = doubled(z, right4);
    let right16 = doubled(z, right8);
    doubled(z, right16)
}

// One word of X ⊗ Y: that of Y is made odd.
fn times_word(x: u32, y: u32) -> u32
    ensures { result ≡ x * bit_or y 1 % 2 ^ 32 }
{
    product(x, y | 1)
}

// One word of X ⊘ Y.
fn over_word(x: u32, y: u32) -> u32
    ensures { result ≡ x * inverse (bit_or y 1) % 2 ^ 32 }
{
    let odd = y | 1;
    let i = inverse(odd);
    product(x, i)
}
