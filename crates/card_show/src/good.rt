// A good card, by recipe, then segment.
use card_fields::Fields;
use card_segments::Segments;
use card_words::segment;
use wording::Text;

// The recipe's number and how long it takes.
fn recipe(out: &mut Text, number: u16, segments: Segments) {
    out.fill(b"recipe $: ", &[u64::from(number)]);
    card_words::time(out, firing::takes(segments));
    out.words(b"\n");
}

fn line(out: &mut Text, f: Fields) {
    out.fill(b"  segment $: ", &[u64::from(f.segment)]);
    segment(out, f);
    out.words(b"\n");
}

pub fn show(out: &mut Text, segments: Segments) {
    if segments.is_empty() {
        out.words(b"the card is empty\n");
    }
    let mut before = None;
    for f in segments {
        if before != Some(f.recipe) {
            recipe(out, f.recipe, segments.of_recipe(f.recipe));
        }
        line(out, f);
        before = Some(f.recipe);
    }
}

// One slot, as finding it hands it back.
pub fn found(out: &mut Text, slot: &[u8]) {
    let f = card_fields::at(slot, 0);
    out.fill(
        b"recipe $ segment $: ",
        &[u64::from(f.recipe), u64::from(f.segment)],
    );
    segment(out, f);
    out.words(b"\n");
}
