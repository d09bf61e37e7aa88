// Recipe cards: whether a card is good, finding a recipe's segment, putting a record (02, request 1). No cipher is known here.
#![tactic(auto)]

ghost use Rattle.std.specs.Prelude.{◌≡◌, length};
ghost use Rattle.refusals.specs.Numbers.{number};
ghost use Rattle.card_slots.specs.Card.{slots};
ghost use Rattle.card.specs.Put.{goes_to};
ghost use Rattle.card.specs.code.Order.{JudgesInOrder, JudgesTo};
ghost use Rattle.card.specs.Promises.{Judges, Finds, Puts};

use card_keys::Keys;
use card_slots::slot::Slot;
use card_slots::{search, slot};
use refusals::Answer;

// A card judged: how many filled slots a good one has, whose keys are put to the front of the places, by recipe, then segment.
pub fn judged(card: &[u8], places: &mut [u32; 256]) -> Option<usize>
    ensures { JudgesTo card.now result places.new }
{
    if card.len() % 16 != 0 {
        return None;
    }
    if card.len() > 4096 {
        return None;
    }
    if search::of_illegal(card) < card.len() / 16 {
        return None;
    }
    let n = card_keys::by_pair(card, places);
    if !card_keys::apart(&places[..n]) {
        return None;
    }
    Some(n)
}

// The keys of a good card's filled slots, by recipe, then segment; none where the card is bad.
pub fn judge(card: &[u8]) -> Option<Keys>
    ensures { JudgesInOrder card.now result }
{
    let mut places = [0u32; 256];
    let len = judged(card, &mut places)?;
    Some(Keys { places, len })
}

// Is the card good?
pub fn good(card: &[u8]) -> bool
    ensures { Judges card.now result }
{
    let mut places = [0u32; 256];
    judged(card, &mut places).is_some()
}

// The very slot of a recipe's segment, a part of the lent card; its empty part where there is none or the card is bad.
pub fn find(card: &[u8], recipe: u64, segment: u64) -> &[u8]
    ensures { Finds card.entry recipe segment result }
{
    if !good(card) {
        return &card[0..0];
    }
    let n = card.len() / 16;
    let i = search::of_pair(card, recipe, segment);
    if i < n {
        return Slot::at(card, i).bytes;
    }
    &card[0..0]
}

// The number of the slot that a record of 16 bytes goes to, or the number of slots.
fn goes_to(card: &[u8], record: &[u8]) -> usize
    ensures { length «record».now ≡ 16 → result ≡ goes_to (slots card.now) «record».now }
{
    let n = card.len() / 16;
    if record.len() != 16 {
        return n;
    }
    let slot = Slot { bytes: record };
    let recipe = slot.recipe() as u64;
    let segment = slot.segment() as u64;
    let namesake = search::of_pair(card, recipe, segment);
    let empty = search::of_empty(card);
    if namesake < n {
        return namesake;
    }
    empty
}

// A record put into the card, which keeps its bytes where this is refused.
pub fn put(card: &mut [u8], record: &[u8]) -> Answer
    ensures { Puts card.old «record».now (number result) card.new }
{
    let bad_card = !good(card);
    let bad_record = !slot::good_record(record);
    let i = goes_to(card, record);
    card_orders::put::first(bad_card, bad_record, i >= card.len() / 16)?;
    let block: [u8; 16] = runs::part(record, 0);
    runs::store(card, i * 16, block);
    Ok(())
}
