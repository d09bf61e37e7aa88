// Cards for a person to read: a good card, what is wrong with a bad one, what differs between two (docs/BENCH.md).
#![tactic(auto)]

pub mod bad;
pub mod changes;
pub mod good;
