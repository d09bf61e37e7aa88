// The slots of a recipe card: one by itself, and all of them looked through for the first of which something holds (02, request 1).
#![tactic(auto)]

pub mod search;
pub mod slot;
