// Which refusal a stream's calls give: the first that applies, by the call's order in refusals/specs.
#![tactic(auto)]

pub mod finish;
pub mod lay_down;
pub mod piece;
pub mod start;
pub mod take_up;
