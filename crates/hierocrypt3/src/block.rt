// One block of Hierocrypt-3 both ways: 002, sections 2.1, 2.2, 3.1 and 3.3, on four columns of four bytes by value, with the tables and the round
// keys borrowed, as two parameters, since half of the steps take one alone.
ghost use Rattle.std.specs.Prelude.{◌≡◌, ◌+◌, ◌≤◌, ◌<◌, ltb};
ghost use Rattle.laws.specs.Choice.{choose};
ghost use Rattle.laws.specs.Places.{part, quarters, joined};
ghost use Rattle.hierocrypt3_steps.specs.Operations.{MDSH⁻};
ghost use Rattle.hierocrypt3_steps.specs.code.Columns.{s_column, s_column⁻};
ghost use Rattle.hierocrypt3.specs.Block.{add_key, first_half, XS, XS⁻, round_key, encryption, decryption, encipher, decipher};
ghost use Rattle.hierocrypt3.specs.code.Columns.{key_column, xs_column, xs_column⁻, round_at, round_at⁻};

use hierocrypt3_steps::mds_h::{mds_h, mds_h_inverse};
use hierocrypt3_steps::mds_l::{mds_l_inverse, mds_l_of_s};
use hierocrypt3_steps::substitution::{s_column, s_column_inverse};
use hierocrypt3_tables::constants::Length;
use hierocrypt3_tables::forward::{Forward, Sbox};
use hierocrypt3_tables::inverse::{Inverse, Unsbox};

// A column xored with four bytes of the round keys.
fn key_column(keys: &[u8; 288], at: usize, x: [u8; 4]) -> [u8; 4]
    requires { at + 4 ≤ 288 }
    ensures { result ≡ key_column keys.now at x }
{
    [
        x[0] ^ keys[at],
        x[1] ^ keys[at + 1],
        x[2] ^ keys[at + 2],
        x[3] ^ keys[at + 3],
    ]
}

// A column xored with four bytes of the round keys, then s at each byte.
fn keyed_s(sbox: &Sbox, keys: &[u8; 288], at: usize, x: [u8; 4]) -> [u8; 4]
    requires { at + 4 ≤ 288 }
    ensures { result ≡ s_column (key_column keys.now at x) }
{
    s_column(sbox, key_column(keys, at, x))
}

// The inverse of it.
fn keyed_s_inverse(unsbox: &Unsbox, keys: &[u8; 288], at: usize, x: [u8; 4]) -> [u8; 4]
    requires { at + 4 ≤ 288 }
    ensures { result ≡ key_column keys.now at (s_column⁻ x) }
{
    key_column(keys, at, s_column_inverse(unsbox, x))
}

// XS on a column: its key bytes stand at `at` and, for the second half, 16 further on.
fn xs_column(tables: &Forward, keys: &[u8; 288], at: usize, x: [u8; 4]) -> [u8; 4]
    requires { at + 20 ≤ 288 }
    ensures { result ≡ xs_column keys.now at x }
{
    let y = mds_l_of_s(&tables.t_table, key_column(keys, at, x));
    keyed_s(&tables.sbox, keys, at + 16, y)
}

// The inverse of XS on a column.
fn xs_column_inverse(tables: &Inverse, keys: &[u8; 288], at: usize, x: [u8; 4]) -> [u8; 4]
    requires { at + 20 ≤ 288 }
    ensures { result ≡ xs_column⁻ keys.now at x }
{
    let y = mds_l_inverse(
        &tables.u_table,
        keyed_s_inverse(&tables.unsbox, keys, at + 16, x),
    );
    keyed_s_inverse(&tables.unsbox, keys, at, y)
}

// XS with round key i + 1.
fn xs(tables: &Forward, keys: &[u8; 288], i: usize, x: [[u8; 4]; 4]) -> [[u8; 4]; 4]
    requires { i < 9 }
    ensures { result ≡ XS (round_key keys.now (i + 1)) x }
{
    let at = i * 32;
    let x0 = x[0];
    let x1 = x[1];
    let x2 = x[2];
    let x3 = x[3];
    [
        xs_column(tables, keys, at, x0),
        xs_column(tables, keys, at + 4, x1),
        xs_column(tables, keys, at + 8, x2),
        xs_column(tables, keys, at + 12, x3),
    ]
}

// The inverse of XS with round key i + 1.
fn xs_inverse(tables: &Inverse, keys: &[u8; 288], i: usize, x: [[u8; 4]; 4]) -> [[u8; 4]; 4]
    requires { i < 9 }
    ensures { result ≡ XS⁻ (round_key keys.now (i + 1)) x }
{
    let at = i * 32;
    let x0 = x[0];
    let x1 = x[1];
    let x2 = x[2];
    let x3 = x[3];
    [
        xs_column_inverse(tables, keys, at, x0),
        xs_column_inverse(tables, keys, at + 4, x1),
        xs_column_inverse(tables, keys, at + 8, x2),
        xs_column_inverse(tables, keys, at + 12, x3),
    ]
}

// The block xored with the first half of round key i + 1.
fn add_key(keys: &[u8; 288], i: usize, x: [[u8; 4]; 4]) -> [[u8; 4]; 4]
    requires { i < 9 }
    ensures { result ≡ add_key (first_half (round_key keys.now (i + 1))) x }
{
    let at = i * 32;
    let x0 = x[0];
    let x1 = x[1];
    let x2 = x[2];
    let x3 = x[3];
    [
        key_column(keys, at, x0),
        key_column(keys, at + 4, x1),
        key_column(keys, at + 8, x2),
        key_column(keys, at + 12, x3),
    ]
}

// Round i + 1 of n + 1: XS, then MDS_H, but for the last.
fn rho(tables: &Forward, keys: &[u8; 288], n: usize, i: usize, x: [[u8; 4]; 4]) -> [[u8; 4]; 4]
    requires { i < 9 }
    ensures { result ≡ round_at keys.now n i x }
{
    let y = xs(tables, keys, i, x);
    if i < n {
        return mds_h(y);
    }
    y
}

// The inverse of MDS_H, but for the last round.
fn unmixed(n: usize, i: usize, x: [[u8; 4]; 4]) -> [[u8; 4]; 4]
    ensures { result ≡ choose (ltb i n) (MDSH⁻ x) x }
{
    if i < n {
        return mds_h_inverse(x);
    }
    x
}

// The inverse of round i + 1 of n + 1.
fn rho_inverse(
    tables: &Inverse,
    keys: &[u8; 288],
    n: usize,
    i: usize,
    x: [[u8; 4]; 4],
) -> [[u8; 4]; 4]
    requires { i < 9 }
    ensures { result ≡ round_at⁻ keys.now n i x }
{
    xs_inverse(tables, keys, i, unmixed(n, i, x))
}

// n + 1 rounds on four columns. The round has one call site, so that it is compiled into the loop.
fn encryption(tables: &Forward, keys: &[u8; 288], n: usize, block: [[u8; 4]; 4]) -> [[u8; 4]; 4]
    requires { n < 8 }
    ensures { result ≡ encryption n (round_key keys.now) block }
{
    let mut x = block;
    for i in 0..n + 1 {
        let y = rho(tables, keys, n, i, x);
        x = y;
    }
    add_key(keys, n + 1, x)
}

// The n + 1 rounds undone, the last first.
fn decryption(tables: &Inverse, keys: &[u8; 288], n: usize, block: [[u8; 4]; 4]) -> [[u8; 4]; 4]
    requires { n < 8 }
    ensures { result ≡ decryption n (round_key keys.now) block }
{
    let mut x = add_key(keys, n + 1, block);
    for i in (0..n + 1).rev() {
        let y = rho_inverse(tables, keys, n, i, x);
        x = y;
    }
    x
}

// Four bytes of a block.
fn column(block: [u8; 16], at: usize) -> [u8; 4]
    requires { at + 4 ≤ 16 }
    ensures { result ≡ part 0 at 4 block }
{
    [block[at], block[at + 1], block[at + 2], block[at + 3]]
}

// A block as four columns.
fn columns(block: [u8; 16]) -> [[u8; 4]; 4]
    ensures { result ≡ quarters 0 4 block }
{
    [
        column(block, 0),
        column(block, 4),
        column(block, 8),
        column(block, 12),
    ]
}

// Four columns as a block.
fn bytes(x: [[u8; 4]; 4]) -> [u8; 16]
    ensures { result ≡ joined 0 4 x }
{
    let x0 = x[0];
    let x1 = x[1];
    let x2 = x[2];
    let x3 = x[3];
    [
        x0[0], x0[1], x0[2], x0[3], x1[0], x1[1], x1[2], x1[3], x2[0], x2[1], x2[2], x2[3], x3[0],
        x3[1], x3[2], x3[3],
    ]
}

// One block enciphered, by its tables.
pub fn encipher_with(
    tables: &Forward,
    keys: &[u8; 288],
    length: Length,
    block: [u8; 16],
) -> [u8; 16]
    ensures { result ≡ encipher length.bytes keys.now block }
{
    bytes(encryption(tables, keys, length.bytes / 8 + 3, columns(block)))
}

// One block deciphered, by the tables of the inverses.
pub fn decipher_with(
    tables: &Inverse,
    keys: &[u8; 288],
    length: Length,
    block: [u8; 16],
) -> [u8; 16]
    ensures { result ≡ decipher length.bytes keys.now block }
{
    bytes(decryption(tables, keys, length.bytes / 8 + 3, columns(block)))
}
