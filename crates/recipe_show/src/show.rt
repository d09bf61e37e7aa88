// A good card by recipe and segment, a bad one by the rules that it breaks.
use card_files::{input, output};
use card_segments::Segments;
use card_show::{bad, good};
use recipe_words::outcome;
use refusals::Refusal;
use wording::Text;

const OUT: usize = 3;

fn show_bad(rt: &HostRuntime, card: &[u8]) {
    let mut space = [0u8; 65536];
    let mut out = Text::new(&mut space);
    bad::show(&mut out, card);
    if output::put(rt, OUT, out.written()).is_some() {
        outcome::refused(rt, Refusal::BadCard, "card", 0);
    }
}

fn show_card(rt: &HostRuntime, card: &[u8]) {
    let Some(keys) = card::judge(card) else {
        show_bad(rt, card);
        return;
    };
    let mut space = [0u8; 65536];
    let mut out = Text::new(&mut space);
    good::show(&mut out, Segments::of(card, keys.as_slice()));
    output::all(rt, OUT, out.written());
}

pub fn show(rt: &HostRuntime) {
    let mut space = [0u8; 4113];
    if let Some(n) = input::card(rt, input::CARD, &mut space) {
        show_card(rt, &space[..n]);
    }
}
