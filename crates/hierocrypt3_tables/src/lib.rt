// Hierocrypt-3's tables (002): s, mds_L and their inverses (sections 3.6 and 3.7), and the constants of its key schedule (section 2.3.1).
#![tactic(auto)]

pub mod constants;
pub mod forward;
pub mod inverse;
