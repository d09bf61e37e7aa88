// Blocks under a cipher's round keys, by a block function that has all else at hand.
#![tactic(auto)]

pub mod alone;
pub mod chain;
pub mod ciphers;
pub mod message;

ghost use Rattle.std.specs.Prelude.{◌≡◌, List, ℕ, eqb};
ghost use Rattle.noekeon_steps.specs.Rule.{rule, rule_of};

use cipher_numbers::NOEKEON;
use noekeon_steps::Version;

// What is done to a block: by which cipher, with a key of which length, in which direction. Cipher and direction are the numbers that C gives.
#[derive(Clone, Copy)]
pub struct Way {
    pub cipher: u64,
    pub length: usize,
    pub direction: u64,
}

impl Way {
    // Which Noekeon it is, where it is one.
    pub fn noekeon(self) -> Version
        ensures { rule_of result ≡ rule (eqb self.cipher 3) }
    {
        if self.cipher == NOEKEON {
            Version::Published
        } else {
            Version::Earlier
        }
    }
}

// A cipher in one direction, with all that a block takes beside the round keys: what it makes of a block.
pub trait BlockFunction {
    // By the round keys and the block.
    ghost of: { Self → List ℕ → List ℕ → List ℕ };

    fn block(&self, keys: &[u8; 288], block: [u8; 16]) -> [u8; 16]
        ensures { result ≡ of self.now keys.now block };
}
