// The seal of a file: written to another one, or checked against a given one.
#![tactic(auto)]

pub mod given;
mod message;
pub mod write;
