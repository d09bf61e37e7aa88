// Blocks under a cipher's round keys in a chain, CBC: by this every call above works its blocks.
ghost use Rattle.std.specs.Prelude.{◌≡◌, ◌++◌, ◌*◌, ◌+◌, ◌≤◌, length};
ghost use Rattle.cbc.specs.Cbc as cbc;
ghost use Rattle.blocks_lent.specs.Ways.{E, D, LegalWay};

use blocks_lent::Way;
use blocks_lent::chain::{decipher_with, encipher_with, last_with};
use blocks_lent::ciphers::{Deciphering, Enciphering};
use blocks_lent::message::Message;
use cipher_numbers::ENCIPHER;
use hierocrypt3_tables::forward::Forward;
use hierocrypt3_tables::inverse::Inverse;

// n blocks of a message through the chain to the front of the output, and the chain block after them. The message is its first block and the rest.
pub fn run(
    keys: &[u8; 288],
    way: Way,
    chain: [u8; 16],
    first: [u8; 16],
    rest: &[u8],
    out: &mut [u8],
    n: usize,
) -> [u8; 16]
    requires { LegalWay way × (16 * n ≤ 16 + length rest.now) × (16 * n ≤ length out.old) }
    ensures { cbc.Chained (E way keys.now) (D way keys.now) way.direction chain (first ++ rest.now) out.old n result out.new }
{
    let message = Message::new(first, rest);
    if way.direction == ENCIPHER {
        by_number!(way, Forward, Enciphering, e => encipher_with(&e, keys, chain, &message, out, n))
    } else {
        by_number!(way, Inverse, Deciphering, d => decipher_with(&d, keys, chain, &message, out, n))
    }
}

// The chain block after n blocks of a message that are enciphered; nothing is written.
pub fn last(
    keys: &[u8; 288],
    way: Way,
    chain: [u8; 16],
    first: [u8; 16],
    rest: &[u8],
    n: usize,
) -> [u8; 16]
    requires { LegalWay way × (way.direction ≡ 1) × (16 * n ≤ 16 + length rest.now) }
    ensures { result ≡ cbc.chain (E way keys.now) 1 chain (cbc.blocks n (first ++ rest.now)) }
{
    let message = Message::new(first, rest);
    by_number!(way, Forward, Enciphering, e => last_with(&e, keys, chain, &message, n))
}
