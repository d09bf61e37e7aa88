// The calls of a script on a seal, and a seal as a script has it and as an answer does. One that reads is None where the
// script doesn't have all of the call; each leaves the seal that comes back.
#![tactic(auto)]

use cipher::Schedule;
use refusals::number;
use script::{reading, writing};
use seal::Seal;
use std::io::Input;

// A seal: schedule, count, chain, held bytes, closed.
pub fn keep(rt: &impl Input) -> Option<Seal> {
    Some(Seal {
        schedule: cipher_calls::keep(rt)?,
        count: reading::number(rt)?,
        chain: reading::array(rt)?,
        held: reading::array(rt)?,
        closed: reading::byte(rt)? != 0,
    })
}

fn returned(rt: &impl Print, seal: Seal) -> Seal {
    cipher_calls::write(rt, seal.schedule);
    writing::number(rt, seal.count);
    writing::bytes(rt, &seal.chain);
    writing::bytes(rt, &seal.held);
    writing::yes(rt, seal.closed);
    seal
}

pub fn start(rt: &impl Print, schedule: Schedule) -> Seal {
    let begun = Seal::start(schedule);
    writing::byte(rt, number(begun.answer));
    returned(rt, begun.seal)
}

pub fn piece(rt: &(impl Input + Print), seal: Seal) -> Option<Seal> {
    let mut bytes = [0u8; 8192];
    let bytes = reading::string(rt, &mut bytes)?;
    let fed = seal.feed(bytes);
    writing::byte(rt, number(fed.answer));
    Some(returned(rt, fed.next))
}

pub fn write(rt: &(impl Input + Print), seal: Seal) -> Option<Seal> {
    let mut out = [0u8; 8192];
    let out = reading::buffer(rt, &mut out)?;
    let written = seal.write(out);
    writing::byte(rt, number(written.answer));
    writing::bytes(rt, out);
    Some(returned(rt, written.next))
}

pub fn check(rt: &(impl Input + Print), seal: Seal) -> Option<Seal> {
    let mut given = [0u8; 8192];
    let given = reading::string(rt, &mut given)?;
    let checked = seal.check(given);
    writing::byte(rt, number(checked.answer));
    writing::yes(rt, checked.yes);
    Some(returned(rt, checked.next))
}
