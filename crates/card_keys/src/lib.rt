// The filled slots of a card by recipe, then segment: a key for each, of its pair and its number on the card.
#![tactic(auto)]

ghost use Rattle.std.specs.Prelude.{◌≡◌, ◌≤◌, ◌<◌, ◌/◌, length, take};
ghost use Rattle.card_slots.specs.Card.{slots};
ghost use Rattle.card_keys.specs.code.Keys as spec;

use card_slots::slot::Slot;

// At the front of 256 places.
#[derive(Clone, Copy)]
pub struct Keys {
    pub places: [u32; 256],
    pub len: usize,
    ghost few: { len ≤ 256 },
}

// Recipe, segment and the slot's number, as one number.
fn key(slot: Slot<'_>, i: usize) -> u32
    requires { i < 256 }
    ensures { result ≡ spec.key_of slot.entry.bytes.now i }
{
    let recipe = slot.recipe() as u32;
    let segment = slot.segment() as u32;
    (recipe * 256 + segment) * 256 + i as u32
}

// Has each key another pair than the one after it?
pub fn apart(keys: &[u32]) -> bool
    ensures { spec.Apart keys.now result }
{
    for i in 1..keys.len() {
        if keys[i - 1] / 256 == keys[i] / 256 {
            return false;
        }
    }
    true
}

// The keys of the slots that have a pair, as they stand on the card, at the front of the places: how many.
fn unsorted(card: &[u8], places: &mut [u32; 256]) -> usize
    requires { length card.now / 16 ≤ 256 }
    ensures { (result ≤ 256) × (take result places.new ≡ spec.keys_from 0 (slots card.now)) }
{
    let mut len: usize = 0;
    for i in 0..card.len() / 16 {
        let k = key(Slot::at(card, i), i);
        places[len] = k;
        if k >= 256 {
            len += 1;
        }
    }
    len
}

// The same in the order of the pairs. The places are borrowed: as a value, the kilobyte would be copied at each step.
pub fn by_pair(card: &[u8], places: &mut [u32; 256]) -> usize
    requires { length card.now / 16 ≤ 256 }
    ensures { spec.InOrder card.now places.new result }
{
    let n = unsorted(card, places);
    sorting::sort(&mut places[0..n]);
    n
}

impl Keys {
    pub fn as_slice(&self) -> &[u32]
        ensures { result.now ≡ take self.now.len self.now.places }
    {
        &self.places[..self.len]
    }
}
