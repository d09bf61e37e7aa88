// Whichever cipher: the schedule record, set-up and one block (01, 'The two records' and 'Refusal numbers'; 02, request 7).
#![tactic(auto)]

ghost use Rattle.std.specs.Prelude.{◌≡◌, length};
ghost use Rattle.refusals.specs.Numbers.{number, number_of};
ghost use Rattle.cipher.specs.Schedule.{bad, zero_schedule, in_direction};
ghost use Rattle.cipher.specs.Calls.{set_up_refusal, set_up_as, block_refusal};
ghost use Rattle.cipher.specs.Numbered.{in_numbers};
ghost use Rattle.cipher.specs.Promises.{SetsUp, WorksBlock, EnciphersBlock, DeciphersBlock};

use blocks_lent::Way;
use cipher_blocks::alone;
use cipher_numbers::blank;
use refusals::{Answer, Refusal};

#[derive(Clone, Copy)]
pub struct Schedule {
    pub round_keys: [u8; 288],
    pub cipher: u8,
    pub key_length: u8,
}

// No Result: a refused set-up gives the all-zero schedule beside its answer, which `SetsUp` promises.
#[derive(Clone, Copy)]
pub struct SetUp {
    pub answer: Answer,
    pub schedule: Schedule,
}

impl Schedule {
    pub fn is_bad(&self) -> bool
        ensures { result ≡ bad self.now }
    {
        let cipher = self.cipher as u64;
        let length = self.key_length as usize;
        if !cipher_numbers::is_cipher(cipher) {
            return true;
        }
        if !cipher_numbers::is_length(cipher, length) {
            return true;
        }
        !cipher_numbers::rest_is_zero(&self.round_keys, cipher, length)
    }
}

// The all-zero schedule.
pub fn no_schedule() -> Schedule
    ensures { result ≡ zero_schedule }
{
    Schedule {
        round_keys: [0u8; 288],
        cipher: 0,
        key_length: 0,
    }
}

// A refused set-up.
fn refused(refusal: Refusal) -> SetUp
    ensures { in_numbers result ≡ set_up_as (number_of refusal) zero_schedule }
{
    SetUp {
        answer: Err(refusal),
        schedule: no_schedule(),
    }
}

// Whether a key is taken for the cipher of a number.
fn set_up_refusal(cipher: u64, key: &[u8]) -> Answer
    ensures { number result ≡ set_up_refusal cipher key.now }
{
    let unknown = !cipher_numbers::is_cipher(cipher);
    let length = !cipher_numbers::is_length(cipher, key.len());
    let blank = blank::is_legal_and_blank(cipher, key);
    cipher_orders::set_up::first(unknown, length, blank)
}

// The schedule of a key, for the cipher of a number.
pub fn set_up(cipher: u64, key: &[u8]) -> SetUp
    ensures { SetsUp cipher key.now (in_numbers result) }
{
    if let Err(refusal) = set_up_refusal(cipher, key) {
        return refused(refusal);
    }
    SetUp {
        answer: Ok(()),
        schedule: Schedule {
            round_keys: cipher_numbers::round_keys(cipher, key),
            cipher: (cipher % 256) as u8,
            key_length: (key.len() % 256) as u8,
        },
    }
}

// Whether one block of that length is worked, with that room.
fn block_refusal(s: Schedule, block: usize, room: usize) -> Answer
    ensures { number result ≡ block_refusal s block room }
{
    cipher_orders::block::first(s.is_bad(), block != 16, room < 16)
}

// One block in a direction to the front of the output.
fn one_block(direction: u64, s: Schedule, block: &[u8], out: &mut [u8]) -> Answer
    ensures { WorksBlock (in_direction direction) s block.now out.old (number result) out.new }
{
    block_refusal(s, block.len(), out.len())?;
    let way = Way {
        cipher: s.cipher as u64,
        length: s.key_length as usize,
        direction,
    };
    alone::run(&s.round_keys, way, block, out, 1);
    Ok(())
}

// One block enciphered to the front of the output.
pub fn encipher_block(s: Schedule, block: &[u8], out: &mut [u8]) -> Answer
    ensures { EnciphersBlock s block.now out.old (number result) out.new }
{
    one_block(cipher_numbers::ENCIPHER, s, block, out)
}

// One block deciphered to the front of the output.
pub fn decipher_block(s: Schedule, block: &[u8], out: &mut [u8]) -> Answer
    ensures { DeciphersBlock s block.now out.old (number result) out.new }
{
    one_block(cipher_numbers::DECIPHER, s, block, out)
}
