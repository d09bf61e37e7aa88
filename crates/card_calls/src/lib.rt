// The calls of a script on cards. No card is kept: each call has its own, and one that may change it writes it whole.
// Each is None where the script doesn't have all of the call.
#![tactic(auto)]

use refusals::number;
use script::{reading, writing};
use std::io::Input;

pub fn good(rt: &(impl Input + Print)) -> Option<()> {
    let mut card = [0u8; 8192];
    let card = reading::string(rt, &mut card)?;
    writing::yes(rt, card::good(card));
    Some(())
}

pub fn find(rt: &(impl Input + Print)) -> Option<()> {
    let mut card = [0u8; 8192];
    let card = reading::string(rt, &mut card)?;
    let recipe = reading::number(rt)?;
    let segment = reading::number(rt)?;
    writing::string(rt, card::find(card, recipe, segment));
    Some(())
}

pub fn put(rt: &(impl Input + Print)) -> Option<()> {
    let mut card = [0u8; 8192];
    let mut record = [0u8; 8192];
    let card = reading::string(rt, &mut card)?;
    let record = reading::string(rt, &mut record)?;
    let answer = card::put(card, record);
    writing::byte(rt, number(answer));
    writing::bytes(rt, card);
    Some(())
}

pub fn compare(rt: &(impl Input + Print)) -> Option<()> {
    let mut first = [0u8; 8192];
    let mut second = [0u8; 8192];
    let mut out = [0u8; 8192];
    let first = reading::string(rt, &mut first)?;
    let second = reading::string(rt, &mut second)?;
    let out = reading::buffer(rt, &mut out)?;
    let compared = card_compare::compare(first, second, out);
    writing::byte(rt, number(compared.answer));
    writing::number(rt, compared.written);
    writing::bytes(rt, out);
    Some(())
}
