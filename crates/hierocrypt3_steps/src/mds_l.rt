// mds_L on a column (002, section 3.7), by its table: after s, and its inverse.
ghost use Rattle.std.specs.Prelude.{◌≡◌};
ghost use Rattle.hierocrypt3_tables.specs.Operations.{mds_l, mds_l⁻};
ghost use Rattle.hierocrypt3_steps.specs.code.Columns.{s_column};

use crate::turned::turned_sum;
use hierocrypt3_tables::forward::TTable;
use hierocrypt3_tables::inverse::UTable;

// s at each byte of a column, then mds_L.
pub fn mds_l_of_s(table: &TTable, x: [u8; 4]) -> [u8; 4]
    ensures { result ≡ mds_l (s_column x) }
{
    turned_sum(table.t(x[0]), table.t(x[1]), table.t(x[2]), table.t(x[3]))
}

// The inverse of mds_L.
pub fn mds_l_inverse(table: &UTable, x: [u8; 4]) -> [u8; 4]
    ensures { result ≡ mds_l⁻ x }
{
    turned_sum(table.u(x[0]), table.u(x[1]), table.u(x[2]), table.u(x[3]))
}
