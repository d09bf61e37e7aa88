// The segment of a recipe, found by the proved call.
use card_files::{input, output};
use card_show::good;
use recipe_words::outcome;
use wording::Text;

const RECIPE: usize = 3;

const SEGMENT: usize = 4;

const OUT: usize = 5;

fn find_pair(rt: &HostRuntime, card: &[u8], recipe: u64, segment: u64) {
    let slot = card::find(card, recipe, segment);
    if slot.is_empty() {
        outcome::tell(rt, format_args!("absent {recipe} {segment}"));
        return;
    }
    let mut space = [0u8; 4096];
    let mut out = Text::new(&mut space);
    good::found(&mut out, slot);
    output::all(rt, OUT, out.written());
}

fn find_in(rt: &HostRuntime, card: &[u8]) {
    if !input::is_good(rt, card, "card") {
        return;
    }
    let Some(recipe) = input::whole(rt, RECIPE, "RECIPE") else {
        return;
    };
    let Some(segment) = input::whole(rt, SEGMENT, "SEGMENT") else {
        return;
    };
    find_pair(rt, card, recipe, segment);
}

pub fn find(rt: &HostRuntime) {
    let mut space = [0u8; 4113];
    if let Some(n) = input::card(rt, input::CARD, &mut space) {
        find_in(rt, &space[..n]);
    }
}
