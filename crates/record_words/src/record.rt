// A record's fields as a person writes them. Which number a field may hold, the proved calls judge.
ghost use Rattle.std.specs.Prelude.{◌≡◌};
ghost use Rattle.record_words.specs.Record as spec;

use crate::named;
use card_fields::Fields;
use card_rules::Field;
use spelling::{number as numbers, word};

#[tactic(auto, unfolding(crate::specs::Record::spelled_in))]
fn spelled(field: Field, text: &[u8]) -> Option<u64>
    ensures { result ≡ spec.spelled_in field text.now }
{
    if card_rules::is_in_tenths(field) {
        return numbers::tenths(text);
    }
    numbers::whole(text)
}

// A number of a line; where it is wrong, that is said.
pub fn number(rt: &impl Print, line: usize, field: Field, text: &[u8]) -> Option<u16>
    ensures { result ≡ spec.number_in field text.now }
{
    let Some(n) = spelled(field, text) else {
        named::no_number(rt, line, field);
        return None;
    };
    if !card_rules::may_be(field, n) {
        named::broken(rt, line, field, n);
        return None;
    }
    Some(n as u16)
}

// A kind's number; where there is none, that is said.
pub fn kind(rt: &impl Print, line: usize, text: &[u8]) -> Option<u16>
    ensures { result ≡ spec.kind_of text.now }
{
    if word::is(text, b"climb") {
        return Some(u16::from(card_fields::CLIMB));
    }
    if word::is(text, b"hold") {
        return Some(u16::from(card_fields::HOLD));
    }
    if word::is(text, b"drop") {
        return Some(u16::from(card_fields::DROP));
    }
    named::plain(rt, line, b"kind is none of climb, hold and drop");
    None
}

// The record, if all its fields are right.
#[tactic(auto, unfolding(crate::specs::Record::record_of))]
pub fn of(
    recipe: Option<u16>,
    segment: Option<u16>,
    kind: Option<u16>,
    target: Option<u16>,
    rate: Option<u16>,
    hold: Option<u16>,
) -> Option<Fields>
    ensures { result ≡ spec.record_of recipe segment kind target rate hold }
{
    Some(Fields {
        recipe: recipe?,
        segment: (segment? % 256) as u8,
        kind: (kind? % 256) as u8,
        target: target?,
        rate: rate?,
        hold: hold?,
    })
}
