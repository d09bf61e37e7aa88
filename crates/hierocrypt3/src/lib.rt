// Hierocrypt-3 (002): one block both ways.
#![tactic(auto)]

pub mod block;
