// Matrices of bits (002, sections 3.2, 3.9 and 3.10): the three that MDS_H shares with the round keys, and a row of bits times four values.
ghost use Rattle.std.specs.Prelude.{◌≡◌};
ghost use Rattle.std.specs.Int.Bits.{bit_xor};
ghost use Rattle.laws.specs.Matrix.{pick};
ghost use Rattle.hierocrypt3_steps.specs.code.Columns.{bit_row};

pub const A: [[u8; 4]; 4] = [[1, 0, 1, 0], [1, 1, 0, 1], [1, 1, 1, 0], [0, 1, 0, 1]];

pub const C: [[u8; 4]; 4] = [[1, 1, 1, 1], [0, 1, 1, 1], [0, 0, 1, 1], [1, 1, 1, 0]];

// The inverse of a.
pub const D: [[u8; 4]; 4] = [[0, 1, 0, 1], [1, 0, 1, 0], [1, 1, 0, 1], [1, 0, 1, 1]];

// x, if the bit is set.
fn picked(bit: u8, x: u32) -> u32
    ensures { result ≡ pick bit_xor 0 bit x }
{
    if bit == 0 {
        return 0;
    }
    x
}

// A row of bits times four values.
pub fn bit_row(m: [u8; 4], x: [u32; 4]) -> u32
    ensures { result ≡ bit_row m x }
{
    picked(m[0], x[0]) ^ picked(m[1], x[1]) ^ picked(m[2], x[2]) ^ picked(m[3], x[3])
}
