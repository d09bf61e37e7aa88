// The edge cases of comparing two recipe cards (02, request 6), run and shown: for each its answer, its list, and what stands behind it.
#![tactic(auto)]

mod show;

use card_records::{EMPTY, full, record};
use edge_words::front;
use show::compare;
use std::array;

fn climb(recipe: u16, segment: u8, target: u16) -> [u8; 16] {
    record(recipe, segment, 1, target, 600, 10)
}

// ---- 02's example
fn rooms(rt: &impl Print, first: &[u8], second: &[u8]) {
    compare(rt, "the example", first, second, 12);
    compare(rt, "the example with more room", first, second, 15);
    compare(rt, "the example in room one byte short", first, second, 11);
    compare(rt, "the example, the cards exchanged", second, first, 12);
}

fn other_orders(rt: &impl Print, a: [u8; 16], b: [u8; 16], c: [u8; 16], d: [u8; 16]) {
    compare(
        rt,
        "the example in other orders, with empty slots",
        [b, EMPTY, a].as_flattened(),
        [EMPTY, d, EMPTY, c].as_flattened(),
        12,
    );
}

fn example(rt: &impl Print) {
    let a = climb(1, 1, 1000);
    let b = climb(1, 2, 1000);
    let c = climb(1, 2, 1100);
    let d = climb(2, 1, 1000);
    rooms(rt, [a, b].as_flattened(), [c, d].as_flattened());
    other_orders(rt, a, b, c, d);
}

// ---- cards of 256 full slots
fn shuffled(slots: &[[u8; 16]; 257]) -> [[u8; 16]; 256] {
    array::from_fn(|i| slots[(i * 37 + 5) % 256])
}

fn same_card(rt: &impl Print) {
    let slots = full(1, 1, 1000);
    let other = shuffled(&slots);
    let card = front(slots.as_flattened(), 4096);
    compare(rt, "the same card", card, card, 0);
    compare(rt, "the same card shuffled", card, other.as_flattened(), 0);
}

fn other_contents(rt: &impl Print, first: &[u8], second: &[u8]) {
    compare(rt, "256 pairs with other contents", first, second, 1024);
    compare(
        rt,
        "256 pairs with other contents in room one byte short",
        first,
        second,
        1023,
    );
}

fn nothing_in_common(rt: &impl Print, first: &[u8], second: &[u8]) {
    compare(rt, "no pair in common", first, second, 2048);
    compare(
        rt,
        "no pair in common in room one byte short",
        first,
        second,
        2047,
    );
}

fn two_full_cards(rt: &impl Print) {
    let slots = full(1, 1, 1000);
    let first = front(slots.as_flattened(), 4096);
    let targets = full(1, 1, 2000);
    other_contents(rt, first, front(targets.as_flattened(), 4096));
    let recipes = full(9, 1, 1000);
    nothing_in_common(rt, first, front(recipes.as_flattened(), 4096));
}

// ---- one record or none
fn against_no_bytes(rt: &impl Print, one: &[u8]) {
    compare(rt, "an empty slot against no bytes", &EMPTY, b"", 0);
    compare(rt, "one record against no bytes", one, b"", 4);
    compare(rt, "one record against no bytes in no room", one, b"", 0);
    compare(rt, "no bytes against one record", b"", one, 4);
}

fn other_fields(rt: &impl Print, one: &[u8]) {
    compare(rt, "another kind", one, &record(1, 1, 2, 1000, 600, 10), 4);
    compare(rt, "another rate", one, &record(1, 1, 1, 1000, 601, 10), 4);
    compare(rt, "another hold", one, &record(1, 1, 1, 1000, 600, 266), 4);
}

// ---- the order of the list
fn order(rt: &impl Print) {
    let card = [
        climb(256, 1, 1000),
        climb(1, 32, 1000),
        climb(65535, 32, 1000),
        climb(1, 2, 1000),
        climb(255, 3, 1000),
    ];
    compare(rt, "by recipe, then segment", card.as_flattened(), b"", 20);
}

// ---- bad cards
fn bad_cards(rt: &impl Print, one: &[u8]) {
    compare(rt, "the first card bad", front(one, 15), one, 4);
    let twice = [climb(2, 1, 1000), climb(2, 1, 1100)];
    compare(rt, "the second card bad", one, twice.as_flattened(), 12);
    let hot = climb(2, 1, 13501);
    compare(rt, "the second card bad, no room", one, &hot, 0);
    let zeros = [0u8; 4112];
    compare(rt, "both cards bad", &zeros, &climb(1, 0, 1000), 2048);
}

fn main(rt: HostRuntime) {
    compare(&rt, "no bytes against no bytes", b"", b"", 0);
    example(&rt);
    same_card(&rt);
    two_full_cards(&rt);
    let one = climb(1, 1, 1000);
    against_no_bytes(&rt, &one);
    other_fields(&rt, &one);
    order(&rt);
    bad_cards(&rt, &one);
}
