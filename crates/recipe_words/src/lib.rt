// What the programs `recipe` and `recipe_seal` are told and tell, and the files that they read and write. No contract
// can say what is read or written, so these functions promise little more than to be safe and to end.
#![tactic(auto)]

pub mod arguments;
pub mod files;
pub mod outcome;
pub mod progress;
