// Which refusal set-up, one block and the C entry give: the first that applies, by the call's order in refusals/specs.
#![tactic(auto)]

pub mod block;
pub mod entry;
pub mod set_up;
