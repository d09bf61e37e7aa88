// The script of replay, taken apart and answered: what every call reads and writes, whatever it calls.
#![tactic(auto)]

pub mod reading;
pub mod writing;
