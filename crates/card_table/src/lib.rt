// A card as a table (docs/BENCH.md, 'The table').
#![tactic(auto)]

pub mod reading;
pub mod writing;
