// The firing of a recipe drawn (docs/BENCH.md): curve CARD RECIPE OUT. Standard output carries the outcome.
#![tactic(auto)]

use card_files::{input, output};
use card_segments::Segments;
use recipe_words::outcome;
use refusals::Refusal;
use wording::Text;

const RECIPE: usize = 3;

const OUT: usize = 4;

fn draw(rt: &HostRuntime, recipe: u16, segments: Segments) {
    let mut space = [0u8; 65536];
    let mut out = Text::new(&mut space);
    card_curve::draw(&mut out, recipe, segments);
    output::all(rt, OUT, out.written());
}

// The recipe's number, and its segments, if the card has any.
fn found(all: Segments, recipe: u64) -> Option<(u16, Segments)> {
    let number = u16::try_from(recipe).ok()?;
    let segments = all.of_recipe(number);
    if segments.is_empty() {
        return None;
    }
    Some((number, segments))
}

fn curve_of(rt: &HostRuntime, card: &[u8]) {
    let Some(keys) = card::judge(card) else {
        outcome::refused(rt, Refusal::BadCard, "card", 0);
        return;
    };
    let Some(recipe) = input::whole(rt, RECIPE, "RECIPE") else {
        return;
    };
    match found(Segments::of(card, keys.as_slice()), recipe) {
        Some((number, segments)) => draw(rt, number, segments),
        None => outcome::tell(rt, format_args!("absent {recipe}")),
    }
}

fn main(rt: HostRuntime) {
    let mut space = [0u8; 4113];
    if let Some(n) = input::card(&rt, input::CARD, &mut space) {
        curve_of(&rt, &space[..n]);
    }
}
