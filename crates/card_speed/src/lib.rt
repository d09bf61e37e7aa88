// What host/bench measures of cards: a card judged, a segment looked for, and two cards compared.
#![tactic(auto)]

ghost use Rattle.card_speed.specs.Works.{MeasuresGood, MeasuresFind, MeasuresCompare};

// 1 where the card is good, else 0.
pub fn tlilcueyoh_speed_good(card: &[u8]) -> u64
    ensures { MeasuresGood card.now result }
{
    if card::good(card) { 1 } else { 0 }
}

// How many bytes a find hands back.
pub fn tlilcueyoh_speed_find(card: &[u8], recipe: u64, segment: u64) -> u64
    ensures { MeasuresFind card.now recipe segment result }
{
    card::find(card, recipe, segment).len() as u64
}

// How many bytes a comparison writes to the front of the output.
pub fn tlilcueyoh_speed_compare(first: &[u8], second: &[u8], out: &mut [u8]) -> u64
    ensures { MeasuresCompare first.now second.now out.old result out.new }
{
    let c = card_compare::compare(first, second, out);
    c.written
}
