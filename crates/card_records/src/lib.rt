// The records and cards of the edge cases. A card is an array of slots.
#![tactic(auto)]

ghost use Rattle.std.specs.Prelude.{◌≤◌};

use card_fields::Fields;

pub const EMPTY: [u8; 16] = [0u8; 16];

// 02's bytes of a record.
pub fn record(recipe: u16, segment: u8, kind: u8, target: u16, rate: u16, hold: u16) -> [u8; 16] {
    card_fields::laid(Fields {
        recipe,
        segment,
        kind,
        target,
        rate,
        hold,
    })
}

// Number n of a full card.
fn numbered(n: u8, recipe: u16, kinds: u8, target: u16) -> [u8; 16]
    requires { (recipe ≤ 65528) × (1 ≤ kinds) × (target ≤ 65280) }
{
    record(
        recipe + u16::from(n / 32),
        1 + n % 32,
        1 + n % kinds,
        target + u16::from(n),
        600,
        10,
    )
}

// 256 full slots, and an empty one after them: eight recipes from this one on with 32 segments each, so many kinds in turn, the targets from this one on.
pub fn full(recipe: u16, kinds: u8, target: u16) -> [[u8; 16]; 257]
    requires { (recipe ≤ 65528) × (1 ≤ kinds) × (target ≤ 65280) }
{
    let mut card = [EMPTY; 257];
    for (slot, n) in card.iter_mut().zip(0..=255) {
        *slot = numbered(n, recipe, kinds, target);
    }
    card
}
