// Blocks under a cipher's round keys, in a chain or each by itself. Nothing above this crate knows a cipher's tables.
#![tactic(auto)]

// What is worked by the block function of a way: here alone a cipher is chosen by its number. The direction comes as Hierocrypt-3's tables and as the wrapper of
// the other ciphers.
macro_rules! by_number {
    ($way:expr, $tables:ident, $direction:ident, $f:ident => $work:expr) => {
        match $way.cipher {
            cipher_numbers::HIEROCRYPT3 => {
                let $f = blocks_lent::ciphers::Hierocrypt3 {
                    tables: $tables::new(),
                    length: hierocrypt3_tables::constants::Length::new($way.length),
                };
                $work
            }
            cipher_numbers::E2 => {
                let $f = $direction(e2_table::Table::new());
                $work
            }
            _ => {
                let $f = $direction(noekeon::Noekeon::new($way.noekeon()));
                $work
            }
        }
    };
}

pub mod alone;
pub mod chain;
