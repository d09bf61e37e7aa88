// A card shown, written as a table, or one of its segments (docs/BENCH.md). The first argument says which:
//     show CARD OUT
//     table CARD OUT
//     find CARD RECIPE SEGMENT OUT
// Standard output carries the outcome.
#![tactic(auto)]

mod find;
mod show;
mod table;

use recipe_words::arguments::{COMMAND, is};
use recipe_words::outcome;

fn main(rt: HostRuntime) {
    if is(&rt, COMMAND, b"show") {
        show::show(&rt);
    } else if is(&rt, COMMAND, b"table") {
        table::write(&rt);
    } else if is(&rt, COMMAND, b"find") {
        find::find(&rt);
    } else {
        outcome::tell(&rt, "usage");
    }
}
