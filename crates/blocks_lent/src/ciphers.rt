// The ciphers' block functions. Each has the tables of its direction alone.
ghost use Rattle.hierocrypt3.specs.Block as hierocrypt3-block;
ghost use Rattle.e2.specs.Block as e2-block;
ghost use Rattle.noekeon_steps.specs.Rule.{rule_of};
ghost use Rattle.noekeon.specs.Noekeon as noekeon-block;

use crate::BlockFunction;
use e2_table::Table;
use hierocrypt3_tables::constants::Length;
use hierocrypt3_tables::forward::Forward;
use hierocrypt3_tables::inverse::Inverse;
use noekeon::Noekeon;

// Hierocrypt-3 with keys of one length, by the tables of one direction.
#[derive(Drop)]
pub struct Hierocrypt3<T> {
    pub tables: T,
    pub length: Length,
}

impl BlockFunction for Hierocrypt3<Forward> {
    ghost of = { λ s. hierocrypt3-block.encipher s.length.bytes };

    fn block(&self, keys: &[u8; 288], block: [u8; 16]) -> [u8; 16] {
        hierocrypt3::block::encipher_with(&self.tables, keys, self.length, block)
    }
}

impl BlockFunction for Hierocrypt3<Inverse> {
    ghost of = { λ s. hierocrypt3-block.decipher s.length.bytes };

    fn block(&self, keys: &[u8; 288], block: [u8; 16]) -> [u8; 16] {
        hierocrypt3::block::decipher_with(&self.tables, keys, self.length, block)
    }
}

// A cipher that does both by the same tables, in its two directions.
#[derive(Drop)]
pub struct Enciphering<C>(pub C);

#[derive(Drop)]
pub struct Deciphering<C>(pub C);

impl BlockFunction for Enciphering<Table> {
    ghost of = { λ s. e2-block.encipher };

    fn block(&self, keys: &[u8; 288], block: [u8; 16]) -> [u8; 16] {
        e2::encipher_with(&self.0, keys, block)
    }
}

impl BlockFunction for Deciphering<Table> {
    ghost of = { λ s. e2-block.decipher };

    fn block(&self, keys: &[u8; 288], block: [u8; 16]) -> [u8; 16] {
        e2::decipher_with(&self.0, keys, block)
    }
}

impl BlockFunction for Enciphering<Noekeon> {
    ghost of = { λ s. noekeon-block.encipher (rule_of s.0.version) };

    fn block(&self, keys: &[u8; 288], block: [u8; 16]) -> [u8; 16] {
        self.0.encipher(keys, block)
    }
}

impl BlockFunction for Deciphering<Noekeon> {
    ghost of = { λ s. noekeon-block.decipher (rule_of s.0.version) };

    fn block(&self, keys: &[u8; 288], block: [u8; 16]) -> [u8; 16] {
        self.0.decipher(keys, block)
    }
}
