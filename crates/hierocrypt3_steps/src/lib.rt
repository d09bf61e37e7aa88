// Hierocrypt-3's steps on columns of four bytes (002, sections 3.2 and 3.4 to 3.7), of which a block and the round keys are made.
#![tactic(auto)]

pub mod bits;
pub mod mds_h;
pub mod mds_l;
pub mod substitution;
pub mod turned;
