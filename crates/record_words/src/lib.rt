// A record as a person writes it, in a line of a table or in the words of a call. What breaks a rule is named on standard
// output, a line each (docs/BENCH.md, 'The table').
#![tactic(auto)]

pub mod named;
pub mod record;
