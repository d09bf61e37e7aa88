// The edge cases of recipe cards (02, request 1), run and shown: for each card whether it is good, and below it its finds and puts.
#![tactic(auto)]

mod show;

use card_records::{EMPTY, full, record};
use edge_words::front;

// A hold at 1,200 degrees.
fn standard(recipe: u16, segment: u8) -> [u8; 16] {
    record(recipe, segment, 2, 12000, 600, 30)
}

fn whole(rt: &impl Print, card: &[u8]) {
    show::card(rt, "256 full slots", card);
    show::find(rt, card, 1, 1);
    show::find(rt, card, 8, 32);
    show::find(rt, card, 9, 1);
    show::put(rt, card, &standard(9, 1));
    show::put(rt, card, &standard(8, 32));
}

// One pair is looked for, and put.
fn one_pair(rt: &impl Print, name: &str, card: &[u8]) {
    show::card(rt, name, card);
    show::find(rt, card, 1, 1);
    show::put(rt, card, &standard(1, 1));
}

fn lengths(rt: &impl Print) {
    one_pair(rt, "no bytes", &[]);
    let slots = full(1, 3, 1000);
    let bytes = slots.as_flattened();
    whole(rt, front(bytes, 4096));
    one_pair(rt, "4112 bytes", bytes);
    let slot = standard(1, 1);
    one_pair(rt, "15 bytes", front(&slot, 15));
}

fn pairs(rt: &impl Print) {
    let slots = [standard(1, 1), EMPTY, record(1, 1, 1, 500, 0, 0)];
    let twice = slots.as_flattened();
    show::card(rt, "a pair twice", twice);
    show::find(rt, twice, 1, 1);
    show::put(rt, twice, &standard(1, 2));
    let slots = [standard(1, 1), standard(1, 2), standard(2, 1)];
    let once = slots.as_flattened();
    show::card(rt, "the same pair in no other slot", once);
    show::find(rt, once, 1, 2);
    show::find(rt, once, 2, 1);
    show::find(rt, once, 2, 2);
}

// A card of one slot, and its pair looked for.
fn alone(rt: &impl Print, name: &str, slot: [u8; 16], recipe: u64, segment: u64) {
    show::card(rt, name, &slot);
    show::find(rt, &slot, recipe, segment);
}

fn targets_and_segments(rt: &impl Print) {
    alone(rt, "target 13500", record(1, 1, 1, 13500, 600, 30), 1, 1);
    alone(rt, "target 13501", record(1, 1, 1, 13501, 600, 30), 1, 1);
    alone(rt, "segment 0", standard(1, 0), 1, 0);
    alone(rt, "segment 1", standard(1, 1), 1, 1);
    alone(rt, "segment 32", standard(1, 32), 1, 32);
    alone(rt, "segment 33", standard(1, 33), 1, 33);
}

fn recipes_and_kinds(rt: &impl Print) {
    alone(rt, "recipe 0", standard(0, 1), 0, 1);
    alone(rt, "recipe 65535", standard(65535, 1), 65535, 1);
    show::find(rt, &standard(65535, 1), 131071, 1);
    alone(rt, "kind 0", record(1, 1, 0, 12000, 600, 30), 1, 1);
    alone(rt, "kind 3", record(1, 1, 3, 12000, 600, 30), 1, 1);
    alone(rt, "kind 4", record(1, 1, 4, 12000, 600, 30), 1, 1);
}

fn tails(rt: &impl Print) {
    let mut tail = standard(1, 1);
    tail[15] = 1;
    alone(rt, "a tail byte of 1", tail, 1, 1);
    alone(
        rt,
        "a rate and a hold of 65535",
        record(1, 1, 3, 0, 65535, 65535),
        1,
        1,
    );
}

fn an_empty_slot(rt: &impl Print, card: &[u8], short: &[u8]) {
    show::card(rt, "an empty slot", card);
    show::find(rt, card, 0, 0);
    show::find(rt, card, 0, 1);
    show::put(rt, card, &standard(1, 1));
    show::put(rt, card, &EMPTY);
    show::put(rt, card, short);
    show::put(rt, card, &record(1, 1, 1, 13501, 600, 30));
}

fn a_namesake(rt: &impl Print, card: &[u8]) {
    show::card(rt, "a namesake behind an empty slot", card);
    show::find(rt, card, 1, 1);
    show::put(rt, card, &record(1, 1, 3, 200, 50, 0));
    show::put(rt, card, &standard(1, 2));
}

fn a_bad_slot(rt: &impl Print, card: &[u8]) {
    show::card(rt, "a bad slot behind a good one", card);
    show::find(rt, card, 1, 1);
    show::put(rt, card, &standard(1, 1));
    show::put(rt, card, &EMPTY);
}

fn slots(rt: &impl Print) {
    let one = standard(1, 1);
    an_empty_slot(rt, &EMPTY, front(&one, 15));
    a_namesake(rt, [EMPTY, one].as_flattened());
    a_bad_slot(rt, [one, standard(1, 33)].as_flattened());
}

fn main(rt: HostRuntime) {
    lengths(&rt);
    pairs(&rt);
    targets_and_segments(&rt);
    recipes_and_kinds(&rt);
    tails(&rt);
    slots(&rt);
}
