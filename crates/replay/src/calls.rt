// The calls of a script, by number, and what is kept after each.
use cipher::Schedule;
use script::{reading, writing};
use seal::Seal;
use std::io::Input;
use stream::Stream;

fn c_entry(rt: &(impl Input + Print)) -> Option<()> {
    let mut key = [0u8; 8192];
    let mut block = [0u8; 8192];
    let mut out = [0u8; 8192];
    let cipher = reading::number(rt)?;
    let direction = reading::number(rt)?;
    let key = reading::string(rt, &mut key)?;
    let block = reading::string(rt, &mut block)?;
    let out = reading::buffer(rt, &mut out)?;
    let answer = entry::tlilcueyoh_block(cipher, direction, key, block, out);
    writing::byte(rt, (answer % 256) as u8);
    writing::bytes(rt, out);
    Some(())
}

// The schedule, the stream and the seal that are kept from call to call.
#[derive(Drop)]
pub struct Kept {
    schedule: Schedule,
    stream: Stream,
    seal: Seal,
}

impl Kept {
    pub fn nothing() -> Self {
        let schedule = Schedule {
            round_keys: [0u8; 288],
            cipher: 0,
            key_length: 0,
        };
        Self {
            schedule,
            stream: Stream {
                schedule,
                direction: 0,
                count: 0,
                chain: [0u8; 16],
                held: [0u8; 15],
                closed: false,
            },
            seal: Seal {
                schedule,
                count: 0,
                chain: [0u8; 16],
                held: [0u8; 16],
                closed: false,
            },
        }
    }

    // The call of a number, which is the script's own and stands here alone: with an enum beside it each would stand twice.
    // None where the script ends: a call is unknown, too long or cut off.
    pub fn call(&mut self, rt: &(impl Input + Print), code: u8) -> Option<()> {
        match code {
            1 => self.schedule = cipher_calls::set_up(rt)?,
            2 => cipher_calls::encipher_block(rt, self.schedule)?,
            3 => cipher_calls::decipher_block(rt, self.schedule)?,
            4 => self.stream = stream_calls::start(rt, self.schedule)?,
            5 => self.stream = stream_calls::piece(rt, self.stream)?,
            6 => self.stream = stream_calls::finish(rt, self.stream),
            7 => c_entry(rt)?,
            8 => self.schedule = cipher_calls::keep(rt)?,
            9 => self.stream = stream_calls::keep(rt)?,
            10 => card_calls::good(rt)?,
            11 => card_calls::find(rt)?,
            12 => card_calls::put(rt)?,
            13 => self.seal = seal_calls::start(rt, self.schedule),
            14 => self.seal = seal_calls::piece(rt, self.seal)?,
            15 => self.seal = seal_calls::write(rt, self.seal)?,
            16 => self.seal = seal_calls::check(rt, self.seal)?,
            17 => self.seal = seal_calls::keep(rt)?,
            18 => stream_calls::lay_down(rt, self.stream)?,
            19 => self.stream = stream_calls::take_up(rt, self.schedule)?,
            20 => card_calls::compare(rt)?,
            _ => return None,
        }
        Some(())
    }
}
