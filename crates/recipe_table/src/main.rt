// A card made from a table, or with a record put on it (docs/BENCH.md). The first argument says which:
//     from TABLE OUT
//     put CARD RECIPE SEGMENT KIND TARGET RATE HOLD OUT
// Standard output carries the outcome in its last line; before it stand the lines or fields that break a rule.
#![tactic(auto)]

mod put;
mod table;

use recipe_words::arguments::{COMMAND, is};
use recipe_words::outcome;

fn main(rt: HostRuntime) {
    if is(&rt, COMMAND, b"from") {
        table::read(&rt);
    } else if is(&rt, COMMAND, b"put") {
        put::put(&rt);
    } else {
        outcome::tell(&rt, "usage");
    }
}
