// What a person typed: a word, or a number (docs/BENCH.md, 'Numbers').
#![tactic(auto)]

pub mod number;
pub mod word;
