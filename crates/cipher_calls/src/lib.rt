// The calls of a script on a schedule, and a schedule as a script has it and as an answer does. Each is None where the
// script doesn't have all of the call.
#![tactic(auto)]

use cipher::Schedule;
use refusals::{Answer, number};
use script::{reading, writing};
use std::io::Input;

// A schedule: cipher number, key length, round keys.
pub fn keep(rt: &impl Input) -> Option<Schedule> {
    let [cipher, key_length] = reading::array::<2>(rt)?;
    Some(Schedule {
        cipher,
        key_length,
        round_keys: reading::array(rt)?,
    })
}

pub fn write(rt: &impl Print, schedule: Schedule) {
    writing::byte(rt, schedule.cipher);
    writing::byte(rt, schedule.key_length);
    writing::bytes(rt, &schedule.round_keys);
}

// The schedule that a set-up returns.
pub fn set_up(rt: &(impl Input + Print)) -> Option<Schedule> {
    let mut key = [0u8; 8192];
    let cipher = reading::number(rt)?;
    let key = reading::string(rt, &mut key)?;
    let made = cipher::set_up(cipher, key);
    writing::byte(rt, number(made.answer));
    write(rt, made.schedule);
    Some(made.schedule)
}

fn one_block<F: FnOnce(&[u8], &mut [u8]) -> Answer>(
    rt: &(impl Input + Print),
    call: F,
) -> Option<()>
    requires { F.IsAlwaysCallable call }
{
    let mut block = [0u8; 8192];
    let mut out = [0u8; 8192];
    let block = reading::string(rt, &mut block)?;
    let out = reading::buffer(rt, &mut out)?;
    let answer = call(block, out);
    writing::byte(rt, number(answer));
    writing::bytes(rt, out);
    Some(())
}

pub fn encipher_block(rt: &(impl Input + Print), schedule: Schedule) -> Option<()> {
    one_block(
        rt,
        |block, out| cipher::encipher_block(schedule, block, out),
    )
}

pub fn decipher_block(rt: &(impl Input + Print), schedule: Schedule) -> Option<()> {
    one_block(
        rt,
        |block, out| cipher::decipher_block(schedule, block, out),
    )
}
