// The slots of a card looked through for the first of which something holds: its number, or the number of slots.
ghost use Rattle.std.specs.Prelude.{◌≡◌, List, ℕ, Bool};
ghost use Rattle.card_slots.specs.Slot as spec;
ghost use Rattle.card_slots.specs.Card.{slots};
ghost use Rattle.card_slots.specs.Find as finds;

use crate::slot::Slot;

// The first slot that passes a test. (No Option: the definition, `place`, has the number of slots where there is none, and an
// Option would be turned into it in each of the three clauses below.)
fn first<F: Fn(Slot<'_>) -> bool>(card: &[u8], passes: F) -> usize
    requires { F.IsAlwaysCallable passes }
    ensures { (t : List ℕ → Bool) → ((s : _) (b : Bool) → F.post passes s b → b ≡ t s.bytes.now) → result ≡ finds.place t (slots card.now) }
{
    let n = card.len() / 16;
    for i in 0..n {
        if passes(Slot::at(card, i)) {
            return i;
        }
    }
    n
}

// The first slot that breaks the rules.
pub fn of_illegal(card: &[u8]) -> usize
    ensures { result ≡ finds.place spec.illegal (slots card.now) }
{
    first(card, |slot| slot.is_illegal())
}

// The first empty slot.
pub fn of_empty(card: &[u8]) -> usize
    ensures { result ≡ finds.place spec.empty (slots card.now) }
{
    first(card, |slot| slot.is_empty())
}

// The slot that has the pair.
pub fn of_pair(card: &[u8], recipe: u64, segment: u64) -> usize
    ensures { result ≡ finds.place (finds.named (recipe, segment)) (slots card.now) }
{
    first(card, |slot| slot.has_pair(recipe, segment))
}
