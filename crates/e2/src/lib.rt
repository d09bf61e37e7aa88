// E2 (001, with 01's repairs): one block both ways. A caller that works many blocks makes the table of s once, and each block borrows it. Both directions
// have a function, as they have a definition.
#![tactic(auto)]

ghost use Rattle.std.specs.Prelude.{◌≡◌};
ghost use Rattle.e2.specs.Block.{encipher, decipher};

use block::Order;
use e2_table::Table;

mod block;

// Enciphers one block.
pub fn encipher_with(table: &Table, keys: &[u8; 288], block: [u8; 16]) -> [u8; 16]
    ensures { result ≡ encipher keys.now block }
{
    block::cipher(table, keys, Order::Enciphering, block)
}

// Deciphers one block.
pub fn decipher_with(table: &Table, keys: &[u8; 288], block: [u8; 16]) -> [u8; 16]
    ensures { result ≡ decipher keys.now block }
{
    block::cipher(table, keys, Order::Deciphering, block)
}
