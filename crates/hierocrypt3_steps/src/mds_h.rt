// MDS_H on a block of four columns of four bytes (002, section 3.2), a row of the block at a time: byte k of each column makes a word, so that a bit of a
// matrix takes or leaves a row of all four columns at once.
ghost use Rattle.std.specs.Prelude.{◌≡◌, ◌<◌, get_or};
ghost use Rattle.laws.specs.Places.{tab};
ghost use Rattle.laws.specs.Bytes.{word};
ghost use Rattle.hierocrypt3_steps.specs.Operations.{MDSH, MDSH⁻};
ghost use Rattle.hierocrypt3_steps.specs.code.Columns.{row_words, turned_row, column_of};

use crate::bits::{A, C, D, bit_row};
use crate::turned::turned_sum;
use words::word::word;

const B: [[u8; 4]; 4] = [[1, 1, 0, 1], [1, 1, 1, 0], [1, 1, 1, 1], [1, 0, 1, 0]];

const E: [[u8; 4]; 4] = [[0, 1, 1, 0], [1, 0, 1, 1], [0, 1, 0, 1], [1, 1, 0, 0]];

// Row k of four columns as a word: byte k of each.
fn row(x0: [u8; 4], x1: [u8; 4], x2: [u8; 4], x3: [u8; 4], k: usize) -> u32
    requires { k < 4 }
    ensures { result ≡ word (get_or x0 k 0) (get_or x1 k 0) (get_or x2 k 0) (get_or x3 k 0) }
{
    word(x0[k], x1[k], x2[k], x3[k])
}

fn rows(x: [[u8; 4]; 4]) -> [u32; 4]
    ensures { result ≡ row_words x }
{
    let x0 = x[0];
    let x1 = x[1];
    let x2 = x[2];
    let x3 = x[3];
    [
        row(x0, x1, x2, x3, 0),
        row(x0, x1, x2, x3, 1),
        row(x0, x1, x2, x3, 2),
        row(x0, x1, x2, x3, 3),
    ]
}

// Column j of a block that is given by its rows.
fn column_of(y0: [u8; 4], y1: [u8; 4], y2: [u8; 4], y3: [u8; 4], j: usize) -> [u8; 4]
    requires { j < 4 }
    ensures { result ≡ column_of y0 y1 y2 y3 j }
{
    [y0[j], y1[j], y2[j], y3[j]]
}

// Four rows as four columns.
fn transposed(y0: [u8; 4], y1: [u8; 4], y2: [u8; 4], y3: [u8; 4]) -> [[u8; 4]; 4]
    ensures { result ≡ tab 4 (column_of y0 y1 y2 y3) }
{
    [
        column_of(y0, y1, y2, y3, 0),
        column_of(y0, y1, y2, y3, 1),
        column_of(y0, y1, y2, y3, 2),
        column_of(y0, y1, y2, y3, 3),
    ]
}

// Row i of four matrices times the block's rows, each product turned one column further.
fn turned_row(
    m: [[u8; 4]; 4],
    n: [[u8; 4]; 4],
    o: [[u8; 4]; 4],
    q: [[u8; 4]; 4],
    i: usize,
    x: [u32; 4],
) -> [u8; 4]
    requires { i < 4 }
    ensures { result ≡ turned_row m n o q x i }
{
    turned_sum(
        bit_row(m[i], x),
        bit_row(n[i], x),
        bit_row(o[i], x),
        bit_row(q[i], x),
    )
}

// A column is a times itself, a times the next, b and c times the ones behind.
pub fn mds_h(x: [[u8; 4]; 4]) -> [[u8; 4]; 4]
    ensures { result ≡ MDSH x }
{
    let a = A;
    let b = B;
    let c = C;
    let w = rows(x);
    transposed(
        turned_row(a, c, b, a, 0, w),
        turned_row(a, c, b, a, 1, w),
        turned_row(a, c, b, a, 2, w),
        turned_row(a, c, b, a, 3, w),
    )
}

pub fn mds_h_inverse(x: [[u8; 4]; 4]) -> [[u8; 4]; 4]
    ensures { result ≡ MDSH⁻ x }
{
    let c = C;
    let d = D;
    let e = E;
    let w = rows(x);
    transposed(
        turned_row(d, e, c, c, 0, w),
        turned_row(d, e, c, c, 1, w),
        turned_row(d, e, c, c, 2, w),
        turned_row(d, e, c, c, 3, w),
    )
}
