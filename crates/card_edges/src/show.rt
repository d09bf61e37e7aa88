// What is shown of a card: whether it is good, what a find hands back, what a put answers and changes.
use edge_words::{Hex, line, say};

pub fn card(rt: &impl Print, name: &str, card: &[u8]) {
    let good = if card::good(card) { "yes" } else { "no" };
    line(rt, format_args!("{name}: good {good}"));
}

pub fn find(rt: &impl Print, card: &[u8], recipe: u64, segment: u64) {
    let part = card::find(card, recipe, segment);
    if part.is_empty() {
        line(rt, format_args!("  find {recipe} {segment}: nothing"));
    } else {
        line(rt, format_args!("  find {recipe} {segment}: {}", Hex(part)));
    }
}

// Each slot, counted from 1, that has these bytes.
fn slots_of(rt: &impl Print, card: &[u8], record: &[u8]) {
    for (i, slot) in card.chunks_exact(16).enumerate() {
        if slot == record {
            say(rt, format_args!(", slot {} is {}", i + 1, Hex(slot)));
        }
    }
}

// A put on a copy of the card, and the slot that is now the record.
pub fn put(rt: &impl Print, card: &[u8], record: &[u8]) {
    let mut space = [0u8; 4112];
    let Some(changed) = space.get_mut(..card.len()) else {
        return;
    };
    changed.copy_from_slice(card);
    let answer = refusals::number(card::put(changed, record));
    say(rt, format_args!("  put {}: answer {answer}", Hex(record)));
    if answer == 0 {
        slots_of(rt, changed, record);
    }
    let as_it_was = if *changed == *card {
        ", all as it was"
    } else {
        ""
    };
    line(rt, as_it_was);
}
