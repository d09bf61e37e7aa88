// The archive of what host/bench measures of cards: each export calls the function of the same name in `card_speed`, whose clauses it has.
#![tactic(auto)]

ghost use Rattle.card_speed.specs.Works.{MeasuresGood, MeasuresFind, MeasuresCompare};

// 1 where the card is good, else 0.
#[unsafe(no_mangle)]
pub extern "C" fn tlilcueyoh_speed_good(card: &[u8]) -> u64
    ensures { MeasuresGood card.now result }
{
    card_speed::tlilcueyoh_speed_good(card)
}

// How many bytes a find hands back.
#[unsafe(no_mangle)]
pub extern "C" fn tlilcueyoh_speed_find(card: &[u8], recipe: u64, segment: u64) -> u64
    ensures { MeasuresFind card.now recipe segment result }
{
    card_speed::tlilcueyoh_speed_find(card, recipe, segment)
}

// How many bytes a comparison writes to the front of the output.
#[unsafe(no_mangle)]
pub extern "C" fn tlilcueyoh_speed_compare(first: &[u8], second: &[u8], out: &mut [u8]) -> u64
    ensures { MeasuresCompare first.now second.now out.old result out.new }
{
    card_speed::tlilcueyoh_speed_compare(first, second, out)
}
