// A record put on a card by the proved call. A card without an empty slot is lengthened by one while it has less than 256.
ghost use Rattle.std.specs.Prelude.{◌≤◌, length};

use card_fields::{Fields, laid};
use card_files::{input, output};
use card_rules::Field;
use cells::trimmed;
use recipe_words::{arguments, outcome};
use record_words::record;
use refusals::{Answer, Refusal};

const RECIPE: usize = 3;

const SEGMENT: usize = 4;

const KIND: usize = 5;

const TARGET: usize = 6;

const RATE: usize = 7;

const HOLD: usize = 8;

const OUT: usize = 9;

fn number(rt: &HostRuntime, argument: usize, field: Field) -> Option<u16> {
    let mut space = [0u8; 64];
    let n = arguments::lay(rt, argument, &mut space);
    record::number(rt, 0, field, trimmed(&space[..n]))
}

fn kind(rt: &HostRuntime, argument: usize) -> Option<u16> {
    let mut space = [0u8; 64];
    let n = arguments::lay(rt, argument, &mut space);
    record::kind(rt, 0, trimmed(&space[..n]))
}

// The record, of which a wrong field is named.
fn fields(rt: &HostRuntime) -> Option<Fields> {
    let recipe = number(rt, RECIPE, Field::Recipe);
    let segment = number(rt, SEGMENT, Field::Segment);
    let kind = kind(rt, KIND);
    let target = number(rt, TARGET, Field::Target);
    let rate = number(rt, RATE, Field::Rate);
    let hold = number(rt, HOLD, Field::Hold);
    record::of(recipe, segment, kind, target, rate, hold)
}

fn end(rt: &HostRuntime, card: &[u8], answer: Answer) {
    match answer {
        Ok(()) => output::all(rt, OUT, card),
        Err(refusal) => outcome::refused(rt, refusal, "card", 0),
    }
}

// The record put on the card at the front of a space.
fn onto(rt: &HostRuntime, space: &mut [u8; 4113], n: usize, record: [u8; 16])
    requires { n ≤ 4113 }
{
    let answer = card::put(&mut space[..n], &record);
    if matches!(answer, Err(Refusal::NoSlot)) && n <= 4080 {
        let longer = &mut space[..n + 16];
        let answer = card::put(longer, &record);
        end(rt, longer, answer);
        return;
    }
    end(rt, &space[..n], answer);
}

pub fn put(rt: &HostRuntime) {
    let mut space = [0u8; 4113];
    let Some(n) = input::card(rt, input::CARD, &mut space) else {
        return;
    };
    if !input::is_good(rt, &space[..n], "card") {
        return;
    }
    match fields(rt) {
        Some(f) => onto(rt, &mut space, n, laid(f)),
        None => outcome::tell(rt, "failed record"),
    }
}
