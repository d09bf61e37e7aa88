// What is wrong with a bad card: every rule that it breaks. Each slot, and each two slots, are judged by the proved call, as
// a card of their own.
use card_rules::Field;
use wording::Text;

// More bytes than are looked at: one more than the slot after a full card.
pub const SPACE: usize = 4113;

fn length(out: &mut Text, n: usize) {
    if n >= SPACE {
        out.words(b"the card has more than 4112 bytes, and at most 4096 have room\n");
        return;
    }
    let n = n as u64;
    if n % 16 != 0 {
        out.fill(b"the card has $ bytes, which is no multiple of 16\n", &[n]);
    }
    if n > 4096 {
        out.fill(b"the card has $ bytes, and at most 4096 have room\n", &[n]);
    }
}

// A field of slot number n, if it breaks the rules.
fn field(out: &mut Text, n: u64, field: Field, value: u64) {
    if card_rules::may_be(field, value) {
        return;
    }
    out.fill(b"slot $: ", &[n]);
    card_rules::broken(out, field, value);
    out.words(b"\n");
}

// Every rule that a slot breaks.
fn rules(out: &mut Text, n: u64, slot: [u8; 16]) {
    let f = card_fields::of(slot);
    field(out, n, Field::Recipe, u64::from(f.recipe));
    field(out, n, Field::Segment, u64::from(f.segment));
    if !card_rules::is_kind(f.kind) {
        out.fill(
            b"slot $: kind $ is none of 1 climb, 2 hold and 3 drop\n",
            &[n, u64::from(f.kind)],
        );
    }
    field(out, n, Field::Target, u64::from(f.target));
    if !runs::zero_from(&slot, 10) {
        out.fill(b"slot $: a byte behind the hold is not zero\n", &[n]);
    }
}

// Is it good as a card of its own?
fn is_legal(slot: [u8; 16]) -> bool {
    card::good(&slot)
}

// Two legal slots make a bad card if they have the same pair.
fn have_one_pair(one: [u8; 16], other: [u8; 16]) -> bool {
    let mut two = [0u8; 32];
    runs::store(&mut two, 0, one);
    runs::store(&mut two, 16, other);
    !card::good(&two)
}

// The first legal slot with the pair of legal slot i, if one stands before it.
fn namesake(card: &[u8], i: usize) -> Option<usize> {
    let slot = card_fields::slot(card, i);
    (0..i).find(|k| {
        let other = card_fields::slot(card, *k);
        is_legal(other) && have_one_pair(other, slot)
    })
}

// The number of slot i, of which a card has no more than 256.
fn number(i: usize) -> u64 {
    i as u64 % 256 + 1
}

// What is wrong with slot i.
fn wrong(out: &mut Text, card: &[u8], i: usize) {
    let slot = card_fields::slot(card, i);
    if !is_legal(slot) {
        rules(out, number(i), slot);
        return;
    }
    if let Some(k) = namesake(card, i) {
        let f = card_fields::of(slot);
        out.fill(
            b"slot $: recipe $ segment $ stands in slot $ already\n",
            &[
                number(i),
                u64::from(f.recipe),
                u64::from(f.segment),
                number(k),
            ],
        );
    }
}

pub fn show(out: &mut Text, card: &[u8]) {
    length(out, card.len());
    for i in 0..(card.len() / 16).min(256) {
        wrong(out, card, i);
    }
}
