// Blocks in a chain, CBC.
ghost use Rattle.std.specs.Prelude.{◌≡◌, ◌++◌, ◌*◌, ◌≤◌, length, drop};
ghost use Rattle.cbc.specs.Cbc.{blocks, join, cbc_encryption, cbc_decryption, last_or};

use crate::BlockFunction;
use crate::message::Message;

// n blocks of a message enciphered through the chain to the front of the output, and the chain block after them.
pub fn encipher_with<E: BlockFunction>(
    e: &E,
    keys: &[u8; 288],
    chain: [u8; 16],
    message: &Message,
    out: &mut [u8],
    n: usize,
) -> [u8; 16]
    requires { (16 * n ≤ length message.now) × (16 * n ≤ length out.old) }
    ensures last { result ≡ last_or chain (cbc_encryption (E.of e.now keys.now) chain (blocks n message.now)) }
    ensures out { out.new ≡ join (cbc_encryption (E.of e.now keys.now) chain (blocks n message.now)) ++ drop (16 * n) out.old }
{
    let mut last = chain;
    for j in 0..n {
        let x = message.block(j);
        let y = e.block(keys, words::bytes::xor(x, last));
        runs::store(out, 16 * j, y);
        last = y;
    }
    last
}

// The same for a message that is deciphered.
pub fn decipher_with<D: BlockFunction>(
    d: &D,
    keys: &[u8; 288],
    chain: [u8; 16],
    message: &Message,
    out: &mut [u8],
    n: usize,
) -> [u8; 16]
    requires { (16 * n ≤ length message.now) × (16 * n ≤ length out.old) }
    ensures last { result ≡ last_or chain (blocks n message.now) }
    ensures out { out.new ≡ join (cbc_decryption (D.of d.now keys.now) chain (blocks n message.now)) ++ drop (16 * n) out.old }
{
    let mut last = chain;
    for k in 0..n {
        let x = message.block(k);
        let y = words::bytes::xor(d.block(keys, x), last);
        runs::store(out, 16 * k, y);
        last = x;
    }
    last
}

// The chain block after n blocks of a message that are enciphered; nothing is written.
pub fn last_with<E: BlockFunction>(
    e: &E,
    keys: &[u8; 288],
    chain: [u8; 16],
    message: &Message,
    n: usize,
) -> [u8; 16]
    requires { 16 * n ≤ length message.now }
    ensures { result ≡ last_or chain (cbc_encryption (E.of e.now keys.now) chain (blocks n message.now)) }
{
    let mut last = chain;
    for i in 0..n {
        let x = message.block(i);
        let c = e.block(keys, words::bytes::xor(x, last));
        last = c;
    }
    last
}
