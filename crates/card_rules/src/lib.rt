// Which field breaks the rules of a card, and in what words. Each is judged by the proved call, on a record that has this
// field and is legal else.
#![tactic(auto)]

ghost use Rattle.std.specs.Prelude.{◌≡◌};
ghost use Rattle.card_rules.specs.declared.Field.TheVariants.{Segment};
ghost use Rattle.card_rules.specs.Rules.{is_kind, may_be, in_tenths};
ghost use Rattle.card_rules.specs.code.LegalElse.{JudgedLaid, LegalElse};

use card_fields::{Fields, laid};
use wording::Text;

// The fields that hold numbers.
#[derive(Clone, Copy)]
pub enum Field {
    Recipe,
    Segment,
    Target,
    Rate,
    Hold,
}

// By its number; any that no other field has is the hold's.
impl From<u8> for Field {
    ghost use Rattle.std.specs.Prelude.{◌≡◌};
    ghost use Rattle.card_rules.specs.Rules.{field_of};

    ghost from_gives = { λ number field. field ≡ field_of number };

    fn from(number: u8) -> Self {
        match number {
            0 => Field::Recipe,
            1 => Field::Segment,
            2 => Field::Target,
            3 => Field::Rate,
            _ => Field::Hold,
        }
    }
}

const LEGAL: Fields = Fields {
    recipe: 1,
    segment: 1,
    kind: 1,
    target: 0,
    rate: 0,
    hold: 0,
};

fn keeps_rules(f: Fields) -> bool
    ensures { JudgedLaid f result }
{
    let record = laid(f);
    card::good(&record)
}

pub fn is_kind(kind: u8) -> bool
    ensures { result ≡ is_kind kind }
{
    keeps_rules(Fields { kind, ..LEGAL })
}

// At most 255, which no segment may be.
fn byte(value: u16) -> u8
    ensures { may_be Segment result ≡ may_be Segment value }
{
    if value > 255 {
        return 255;
    }
    value as u8
}

// A legal record with this number in this field.
fn with(field: Field, value: u16) -> Fields
    ensures { LegalElse field value result }
{
    match field {
        Field::Recipe => Fields {
            recipe: value,
            ..LEGAL
        },
        Field::Segment => Fields {
            segment: byte(value),
            ..LEGAL
        },
        Field::Target => Fields {
            target: value,
            ..LEGAL
        },
        Field::Rate => Fields {
            rate: value,
            ..LEGAL
        },
        Field::Hold => Fields {
            hold: value,
            ..LEGAL
        },
    }
}

// May the field hold this number? One over 65535 has no place in any.
pub fn may_be(field: Field, value: u64) -> bool
    ensures { result ≡ may_be field value }
{
    match u16::try_from(value) {
        Ok(number) => keeps_rules(with(field, number)),
        Err(_) => false,
    }
}

pub fn is_in_tenths(field: Field) -> bool
    ensures { result ≡ in_tenths field }
{
    matches!(field, Field::Target | Field::Rate)
}

// The field, the number that it may not be, and the rule.
pub fn broken(out: &mut Text, field: Field, value: u64) {
    match field {
        Field::Recipe => out.fill(b"recipe $ is not from 1 to 65535", &[value]),
        Field::Segment => out.fill(b"segment $ is not from 1 to 32", &[value]),
        Field::Target => out.fill(b"target ~ is over 1350.0", &[value]),
        Field::Rate => out.fill(b"rate ~ is over 6553.5", &[value]),
        Field::Hold => out.fill(b"hold $ is over 65535", &[value]),
    }
}
