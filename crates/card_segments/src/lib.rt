// The segments of a judged card, by recipe, then number.
#![tactic(auto)]

ghost use Rattle.std.specs.Prelude.{◌≡◌, ◌↔◌, IsTrue, not, length, take_while};
ghost use Rattle.std.specs.Iterator.{at_most};
ghost use Rattle.card_segments.specs.Keys.{is_of, keys_of};

use card_fields::Fields;

// A card, and the keys of its segments, as the card's judge puts them in order.
#[derive(Clone, Copy)]
pub struct Segments<'a> {
    card: &'a [u8],
    keys: &'a [u32],
}

fn is_of(key: u32, recipe: u16) -> bool
    ensures { result ≡ is_of recipe key }
{
    key / 65536 == u32::from(recipe)
}

// How many keys stand before a recipe's.
fn others(keys: &[u32], recipe: u16) -> usize
    ensures { result ≡ length (take_while (λ key. not (is_of recipe key)) keys.now) }
{
    keys.iter().take_while(|key| !is_of(**key, recipe)).count()
}

// How many at the front are a recipe's.
fn its(keys: &[u32], recipe: u16) -> usize
    ensures { result ≡ length (take_while (is_of recipe) keys.now) }
{
    keys.iter().take_while(|key| is_of(**key, recipe)).count()
}

impl<'a> Segments<'a> {
    pub fn of(card: &'a [u8], keys: &'a [u32]) -> Segments<'a>
        ensures card { result.card.now ≡ card.now }
        ensures keys { result.keys.now ≡ keys.now }
    {
        Segments { card, keys }
    }

    pub fn is_empty(self) -> bool
        ensures { IsTrue result ↔ (length self.entry.keys.now ≡ 0) }
    {
        self.keys.is_empty()
    }

    // Those of a recipe, which stand together.
    pub fn of_recipe(self, recipe: u16) -> Segments<'a>
        ensures card { result.card.now ≡ self.entry.card.now }
        ensures keys { result.keys.now ≡ keys_of recipe self.entry.keys.now }
    {
        let rest = &self.keys[others(self.keys, recipe)..];
        Segments {
            card: self.card,
            keys: &rest[..its(rest, recipe)],
        }
    }
}

impl Iterator for Segments<'_> {
    type Item = Fields;

    ghost remaining = { λ s. at_most (length s.keys.now) };

    fn next(&mut self) -> Option<Fields> {
        let (key, others) = self.keys.split_first()?;
        self.keys = others;
        Some(card_fields::at(self.card, (*key % 256) as usize))
    }
}
