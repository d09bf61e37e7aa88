// What is shown of a comparison: its answer, its list, and whether the output after that stands.
use edge_words::{Hex, front, line};

// Every byte of the output before the call.
const BEFORE: u8 = 238;

fn list(rt: &impl Print, records: &[u8]) {
    for record in records.chunks_exact(4) {
        line(rt, format_args!("  {}", Hex(record)));
    }
}

// Is every byte from a place on as it was?
fn stands(out: &[u8], from: usize) -> bool {
    out.iter().skip(from).all(|byte| *byte == BEFORE)
}

fn into(rt: &impl Print, name: &str, first: &[u8], second: &[u8], out: &mut [u8]) {
    let room = out.len();
    let compared = card_compare::compare(first, second, out);
    let answer = refusals::number(compared.answer);
    let written = compared.written;
    line(
        rt,
        format_args!("{name}, in {room} of room: answer {answer}, writes {written}"),
    );
    list(rt, front(out, written as usize));
    let rest = if stands(out, written as usize) {
        "as it was"
    } else {
        "changed"
    };
    line(rt, format_args!("  behind it: {rest}"));
}

pub fn compare(rt: &impl Print, name: &str, first: &[u8], second: &[u8], room: usize) {
    let mut space = [BEFORE; 2048];
    if let Some(out) = space.get_mut(..room) {
        into(rt, name, first, second, out);
    }
}
