// The blocks of a piece through the chain, and the seal behind the last one.
ghost use Rattle.std.specs.Prelude.{◌≡◌, true, false, ◌++◌, ◌+◌, ◌*◌, ◌≤◌, ◌<◌, length, take};
ghost use Rattle.cbc.specs.Cbc.{blocks};
ghost use Rattle.cmac.specs.Cmac.{chained};
ghost use Rattle.cipher_numbers.specs.Ciphers.{is_length};
ghost use Rattle.cipher.specs.Schedule.{bad, enciphered};
ghost use Rattle.seal.specs.State.{bad_state};
ghost use Rattle.seal.specs.Calls.{sealed};

use crate::Seal;
use blocks_lent::Way;
use cipher_blocks::chain;
use pieces::held::first_block;

// The chain block behind n blocks, at least one, of the held bytes and a piece.
pub fn run(s: Seal, kept: usize, piece: &[u8], n: usize) -> [u8; 16]
    requires { (is_length s.schedule.cipher s.schedule.key_length ≡ true) × (kept ≤ 16) × (0 < n) × (16 * n ≤ kept + length piece.now) }
    ensures { result ≡ chained (enciphered s.schedule) s.chain (blocks n (take kept s.held ++ piece.now)) }
{
    let held = s.held;
    let first = first_block(&held, kept, piece);
    let way = Way {
        cipher: s.schedule.cipher as u64,
        length: s.schedule.key_length as usize,
        direction: cipher_numbers::ENCIPHER,
    };
    let before = s.chain;
    let from = 16 - kept;
    chain::last(
        &s.schedule.round_keys,
        way,
        before,
        first,
        &piece[from..],
        n,
    )
}

// One block enciphered.
fn enciphered(s: Seal, block: [u8; 16]) -> [u8; 16]
    requires { bad s.schedule ≡ false }
    ensures { result ≡ enciphered s.schedule block }
{
    let schedule = s.schedule;
    let mut out = [0u8; 16];
    let _ = cipher::encipher_block(schedule, &block, &mut out);
    out
}

// The seal of what a good state has accepted.
pub fn sealed(s: Seal) -> [u8; 16]
    requires { bad_state s ≡ false }
    ensures { result ≡ sealed s }
{
    let l = enciphered(s, [0u8; 16]);
    let held = s.held;
    let last = cmac_steps::last::masked(l, held, cmac_steps::count::held_number(s.count));
    let chain = s.chain;
    enciphered(s, words::bytes::xor(chain, last))
}
