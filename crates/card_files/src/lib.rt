// The cards and numbers that the bench's programs are given, and what they write.
#![tactic(auto)]

pub mod input;
pub mod output;
