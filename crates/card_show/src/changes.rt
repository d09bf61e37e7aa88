// The differences of two cards, a line for each record of the list that comparing them makes.
use card_fields::Fields;
use card_words::segment;
use wording::Text;

// Which card has the segment of a record, by the byte that comparing them puts there.
enum Mark {
    OnlyFirst,
    OnlySecond,
    Both,
}

impl From<u8> for Mark {
    fn from(byte: u8) -> Mark {
        match byte {
            1 => Mark::OnlyFirst,
            2 => Mark::OnlySecond,
            _ => Mark::Both,
        }
    }
}

// What stands before the next field that changed, where those from `start` on are written.
fn comma(out: &mut Text, start: usize) {
    if out.written().len() != start {
        out.words(b", ");
    }
}

fn kind(out: &mut Text, was: u8, is: u8) {
    if was == is {
        return;
    }
    out.words(b"kind was ");
    card_words::kind(out, was);
    out.words(b" and is ");
    card_words::kind(out, is);
}

// A field with its old and new number, after those from `start` on, if they differ.
fn field(out: &mut Text, start: usize, text: &[u8], was: u16, is: u16) {
    if was == is {
        return;
    }
    comma(out, start);
    out.fill(text, &[u64::from(was), u64::from(is)]);
}

fn changed(out: &mut Text, was: Fields, is: Fields) {
    out.words(b"changed: ");
    let start = out.written().len();
    kind(out, was.kind, is.kind);
    field(out, start, b"target was ~ and is ~", was.target, is.target);
    field(out, start, b"rate was ~ and is ~", was.rate, is.rate);
    field(out, start, b"hold was $ and is $", was.hold, is.hold);
}

fn on_one(out: &mut Text, deed: &[u8], f: Fields) {
    out.words(deed);
    segment(out, f);
}

// `was` and `is` are the segment on the first card and on the second.
fn change(out: &mut Text, mark: Mark, was: Fields, is: Fields) {
    match mark {
        Mark::OnlyFirst => on_one(out, b"taken out: ", was),
        Mark::OnlySecond => on_one(out, b"put in: ", is),
        Mark::Both => changed(out, was, is),
    }
}

// The segment of a pair on a card, found by the proved call.
fn found(card: &[u8], recipe: u16, segment: u8) -> Fields {
    card_fields::at(card::find(card, u64::from(recipe), u64::from(segment)), 0)
}

// The records of the list: recipe, segment, mark.
pub fn show(out: &mut Text, first: &[u8], second: &[u8], list: &[u8]) {
    for record in list.chunks_exact(4) {
        let [high, low, segment, mark] = record else {
            return;
        };
        let recipe = u16::from_be_bytes([*high, *low]);
        let was = found(first, recipe, *segment);
        let is = found(second, recipe, *segment);
        out.fill(
            b"recipe $ segment $: ",
            &[u64::from(recipe), u64::from(*segment)],
        );
        change(out, Mark::from(*mark), was, is);
        out.words(b"\n");
    }
}
