// The files of keys and first blocks: hex digits, a whole file of them or a line of two. And the keys' schedules.
#![tactic(auto)]

pub mod hex_file;
pub mod keys;
pub mod line;
pub mod schedule;
mod spot;
