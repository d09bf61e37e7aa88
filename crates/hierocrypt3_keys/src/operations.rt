// The operations of the key schedule (002, sections 3.8 to 3.11) on pieces of eight bytes. Nothing here needs to be fast.
ghost use Rattle.std.specs.Prelude.{◌≡◌, ◌++◌, ◌+◌, ◌≤◌};
ghost use Rattle.std.specs.Int.Bits.{bit_xor};
ghost use Rattle.laws.specs.Places.{part};
ghost use Rattle.laws.specs.Bytes.{xor_l};
ghost use Rattle.laws.specs.Matrix.{bit_matrix};
ghost use Rattle.hierocrypt3_steps.specs.code.Columns.{bit_row};
ghost use Rattle.hierocrypt3_keys.specs.Operations.{P, P⁻, M5E, MB3, Fσ};
ghost use Rattle.hierocrypt3_keys.specs.code.Exchanged.{exchanged};

use hierocrypt3_steps::bits;
use hierocrypt3_steps::substitution::s_column;
use hierocrypt3_tables::forward::Sbox;
use runs::part;
use words::bytes::xor;

// Two halves as one piece.
fn joined(x: [u8; 4], y: [u8; 4]) -> [u8; 8]
    ensures { result ≡ x ++ y }
{
    [x[0], x[1], x[2], x[3], y[0], y[1], y[2], y[3]]
}

// A row of bits times a half.
fn row_times(m: [u8; 4], x: [u8; 4]) -> u8
    ensures { result ≡ bit_row m x }
{
    bits::bit_row(m, [x[0] as u32, x[1] as u32, x[2] as u32, x[3] as u32]) as u8
}

// A matrix of bits times a half.
fn bit_matrix(m: [[u8; 4]; 4], x: [u8; 4]) -> [u8; 4]
    ensures { result ≡ bit_matrix bit_xor 0 4 m x }
{
    [
        row_times(m[0], x),
        row_times(m[1], x),
        row_times(m[2], x),
        row_times(m[3], x),
    ]
}

// M5E (section 3.9).
pub fn m5e(x: [u8; 8]) -> [u8; 8]
    ensures { result ≡ M5E x }
{
    joined(
        bit_matrix(bits::A, part(&x, 0)),
        bit_matrix(bits::C, part(&x, 4)),
    )
}

// The inverse of c.
const UNC: [[u8; 4]; 4] = [[1, 1, 0, 0], [0, 1, 1, 0], [1, 0, 1, 1], [1, 0, 0, 1]];

// MB3 (section 3.10).
pub fn mb3(x: [u8; 8]) -> [u8; 8]
    ensures { result ≡ MB3 x }
{
    joined(
        bit_matrix(bits::D, part(&x, 0)),
        bit_matrix(UNC, part(&x, 4)),
    )
}

// The two pairs of a half in the other order.
fn pairs_exchanged(x: [u8; 4]) -> [u8; 4]
    ensures { result ≡ exchanged 2 x }
{
    [x[2], x[3], x[0], x[1]]
}

// The two halves of a piece in the other order.
fn halves_exchanged(x: [u8; 8]) -> [u8; 8]
    ensures { result ≡ exchanged 4 x }
{
    joined(part(&x, 4), part(&x, 0))
}

// P^(16) on the four pairs of a piece (section 3.8): y1 y2 is x1 x2 + x3 x4, and y3 y4 is y2 y1 + x3 x4.
fn p16(x: [u8; 8]) -> [u8; 8]
    ensures { result ≡ P 2 x }
{
    let x34 = part(&x, 4);
    let y12 = xor(part(&x, 0), x34);
    joined(y12, xor(pairs_exchanged(y12), x34))
}

// The first piece of P^(32) on the four halves of two pieces: y1 y2 is x1 x2 + x3 x4.
pub fn p32_first(x: [u8; 8], y: [u8; 8]) -> [u8; 8]
    ensures { result ≡ part 0 0 8 (P 4 (x ++ y)) }
{
    xor(x, y)
}

// The second: y3 y4 is y2 y1 + x3 x4.
pub fn p32_second(x: [u8; 8], y: [u8; 8]) -> [u8; 8]
    ensures { result ≡ part 0 8 8 (P 4 (x ++ y)) }
{
    xor(halves_exchanged(xor(x, y)), y)
}

// The second piece of the inverse of P^(32): x3 x4 is y2 y1 + y3 y4.
pub fn p32_inverse_second(x: [u8; 8], y: [u8; 8]) -> [u8; 8]
    ensures { result ≡ part 0 8 8 (P⁻ 4 (x ++ y)) }
{
    xor(halves_exchanged(x), y)
}

// The first: x1 x2 is y1 y2 + x3 x4.
pub fn p32_inverse_first(x: [u8; 8], y: [u8; 8]) -> [u8; 8]
    ensures { result ≡ part 0 0 8 (P⁻ 4 (x ++ y)) }
{
    xor(x, xor(halves_exchanged(x), y))
}

// Fσ (section 3.11).
pub fn f_sigma(sbox: &Sbox, x: [u8; 8]) -> [u8; 8]
    ensures { result ≡ Fσ x }
{
    p16(joined(s_column(sbox, part(&x, 0)), s_column(sbox, part(&x, 4))))
}
