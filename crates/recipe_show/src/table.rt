// A good card as a table.
use card_files::{input, output};
use card_table::writing;
use wording::Text;

const OUT: usize = 3;

fn table_of(rt: &HostRuntime, card: &[u8]) {
    if !input::is_good(rt, card, "card") {
        return;
    }
    let mut space = [0u8; 65536];
    let mut out = Text::new(&mut space);
    writing::write(&mut out, card);
    output::all(rt, OUT, out.written());
}

pub fn write(rt: &HostRuntime) {
    let mut space = [0u8; 4113];
    if let Some(n) = input::card(rt, input::CARD, &mut space) {
        table_of(rt, &space[..n]);
    }
}
