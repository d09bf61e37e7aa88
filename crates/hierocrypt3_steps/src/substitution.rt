// s at each byte of a column (002, sections 3.4 and 3.6), by its table, and its inverse: a function for each table, since each
// is a type of its own (forward::Sbox says why).
ghost use Rattle.std.specs.Prelude.{◌≡◌};
ghost use Rattle.hierocrypt3_steps.specs.code.Columns.{s_column, s_column⁻};

use hierocrypt3_tables::forward::Sbox;
use hierocrypt3_tables::inverse::Unsbox;

pub fn s_column(sbox: &Sbox, x: [u8; 4]) -> [u8; 4]
    ensures { result ≡ s_column x }
{
    [sbox.s(x[0]), sbox.s(x[1]), sbox.s(x[2]), sbox.s(x[3])]
}

pub fn s_column_inverse(unsbox: &Unsbox, x: [u8; 4]) -> [u8; 4]
    ensures { result ≡ s_column⁻ x }
{
    [
        unsbox.s_inverse(x[0]),
        unsbox.s_inverse(x[1]),
        unsbox.s_inverse(x[2]),
        unsbox.s_inverse(x[3]),
    ]
}
