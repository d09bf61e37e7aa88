// Which refusal putting and comparing give: the first that applies, by the call's order in refusals/specs.
#![tactic(auto)]

pub mod compare;
pub mod put;
