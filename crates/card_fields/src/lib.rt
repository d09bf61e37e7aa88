// The fields of a slot, read from its bytes and laid down in them (02, request 1).
#![tactic(auto)]

ghost use Rattle.std.specs.Prelude.{◌≡◌};
ghost use Rattle.card_fields.specs.Fields.{Has, Laid, slot_of, slot_at};

use card_slots::slot::Slot;

pub const CLIMB: u8 = 1;

pub const HOLD: u8 = 2;

pub const DROP: u8 = 3;

// Target in tenths of a degree, rate in those per hour, hold in minutes.
#[derive(Clone, Copy)]
pub struct Fields {
    pub recipe: u16,
    pub segment: u8,
    pub kind: u8,
    pub target: u16,
    pub rate: u16,
    pub hold: u16,
}

pub fn of(slot: [u8; 16]) -> Fields
    ensures { Has slot result }
{
    let slot = Slot { bytes: &slot };
    Fields {
        recipe: slot.recipe(),
        segment: slot.segment(),
        kind: slot.kind(),
        target: slot.target(),
        rate: slot.rate(),
        hold: slot.hold(),
    }
}

pub fn laid(f: Fields) -> [u8; 16]
    ensures laid { Laid f result }
    ensures value { result ≡ slot_of f }
{
    let recipe = f.recipe.to_be_bytes();
    let target = f.target.to_be_bytes();
    let rate = f.rate.to_be_bytes();
    let hold = f.hold.to_be_bytes();
    [
        recipe[0], recipe[1], f.segment, f.kind, target[0], target[1], rate[0], rate[1], hold[0],
        hold[1], 0, 0, 0, 0, 0, 0,
    ]
}

// Slot i of a card, or zeros where the card has no such slot.
#[tactic(auto, unfolding(crate::specs::Fields::slot_at))]
pub fn slot(card: &[u8], i: usize) -> [u8; 16]
    ensures { result ≡ slot_at card.now i }
{
    if i < card.len() / 16 {
        return runs::part(card, i * 16);
    }
    [0u8; 16]
}

// Its fields.
pub fn at(card: &[u8], i: usize) -> Fields
    ensures { Has (slot_at card.now i) result }
{
    of(slot(card, i))
}
