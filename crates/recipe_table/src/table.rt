// A card made from a table.
use card_files::output;
use card_table::reading;
use recipe_words::{files, outcome};

const TABLE: usize = 2;

const OUT: usize = 3;

fn onto_card(rt: &HostRuntime, table: &[u8]) {
    let mut card = [0u8; 4096];
    let mut lines = [0usize; 256];
    let read = reading::read(rt, table, &mut card, &mut lines);
    if !read.good {
        outcome::tell(rt, "failed table");
        return;
    }
    output::all(rt, OUT, &card[..read.records.min(256) * 16]);
}

pub fn read(rt: &HostRuntime) {
    let mut text = [0u8; 65536];
    let Some(n) = files::whole(rt, TABLE, "table", true, &mut text) else {
        return;
    };
    if n == 65536 {
        outcome::tell(rt, "failed long table");
        return;
    }
    onto_card(rt, &text[..n]);
}
