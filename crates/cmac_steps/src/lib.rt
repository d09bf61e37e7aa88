// The steps of CMAC that need no cipher: NIST SP 800-38B, 6.1 and 6.2. No state record is known here.
#![tactic(auto)]

pub mod count;
pub mod given;
pub mod last;
