// Which refusal a seal's calls give: the first that applies, by the call's order in refusals/specs.
#![tactic(auto)]

pub mod check;
pub mod piece;
pub mod start;
pub mod write;
