// What is said of a line, or of a record that stands in no line, where its number is 0: an Option would be no plainer, since all
// callers but one have a number to wrap. Every line of words ends what it says. A failed write of it is passed over.
use card_rules::Field;
use wording::Text;

// No sentence is longer.
const SPACE: usize = 128;

fn line(out: &mut Text, number: usize) {
    if number != 0 {
        out.fill(b"line $: ", &[number as u64]);
    }
}

fn say(rt: &impl Print, out: &mut Text) {
    out.words(b"\n");
    let _ = rt.write_all(out.written());
}

// A sentence with numbers in it, as Text::fill has it.
pub fn sentence(rt: &impl Print, number: usize, text: &[u8], numbers: &[u64]) {
    let mut space = [0; SPACE];
    let mut out = Text::new(&mut space);
    line(&mut out, number);
    out.fill(text, numbers);
    say(rt, &mut out);
}

pub fn broken(rt: &impl Print, number: usize, field: Field, value: u64) {
    let mut space = [0; SPACE];
    let mut out = Text::new(&mut space);
    line(&mut out, number);
    card_rules::broken(&mut out, field, value);
    say(rt, &mut out);
}

pub fn plain(rt: &impl Print, number: usize, text: &[u8]) {
    sentence(rt, number, text, &[]);
}

pub fn no_number(rt: &impl Print, number: usize, field: Field) {
    let text: &[u8] = match field {
        Field::Recipe => b"recipe is no whole number of 1 to 9 digits",
        Field::Segment => b"segment is no whole number of 1 to 9 digits",
        Field::Target => b"target is no number of 1 to 9 digits with at most one decimal place",
        Field::Rate => b"rate is no number of 1 to 9 digits with at most one decimal place",
        Field::Hold => b"hold is no whole number of 1 to 9 digits",
    };
    plain(rt, number, text);
}
