// Words, and bytes xored: the small code that the ciphers and the chain share.
#![tactic(auto)]

pub mod bytes;
pub mod word;
