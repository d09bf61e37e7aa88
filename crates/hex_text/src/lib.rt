// A text of hex digits, taken apart: its characters, and its bytes. What a whole text is taken for, the crate hex_digits decides.
#![tactic(auto)]

mod characters;
pub mod text;
