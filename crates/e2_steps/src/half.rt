// Half a block, 8 bytes, as two words of 32 bits, the left byte the highest, and 001's S, P, BRL and ⊕ on it.
ghost use Rattle.std.specs.Prelude.{◌≡◌, ◌+◌, ◌/◌, ◌%◌, ◌^◌, ◌≤◌, length};
ghost use Rattle.laws.specs.Bytes.{xor_l};
ghost use Rattle.laws.specs.Places.{part};
ghost use Rattle.words.specs.Word.{WordOf};
ghost use Rattle.e2_table.specs.Substitution as substitution;
ghost use Rattle.e2_steps.specs.Steps.{BRL, S, P};
ghost use Rattle.e2_steps.specs.code.Layout.{pair_bytes};

use e2_table::Table;
use std::ops::BitXor;
use words::word::{byte0, byte1, byte2, byte3, rotated, word, word_at};

#[derive(Clone, Copy)]
pub struct Pair {
    pub a: u32,
    pub b: u32,
}

impl Pair {
    // The half that stands in some bytes from a place on.
    pub fn load(bytes: &[u8], at: usize) -> Self
        requires { at + 8 ≤ length bytes.now }
        ensures { pair_bytes result ≡ part 0 at 8 bytes.now }
    {
        Pair {
            a: word_at(bytes, at),
            b: word_at(bytes, at + 4),
        }
    }

    // S: s at each byte.
    pub fn s(self, table: &Table) -> Self
        ensures { pair_bytes result ≡ S (pair_bytes self) }
    {
        Pair {
            a: s_word(table, self.a),
            b: s_word(table, self.b),
        }
    }

    // P, in the sixteen steps of 001, four at a time.
    pub fn p(self) -> Self
        ensures { pair_bytes result ≡ P (pair_bytes self) }
    {
        let h = self.b ^ self.a;
        let l = self.a ^ rotated(h, 16);
        let y = h ^ rotated(l, 24);
        Pair { a: l ^ y, b: y }
    }

    // BRL: one byte to the left.
    pub fn brl(self) -> Self
        ensures { pair_bytes result ≡ BRL (pair_bytes self) }
    {
        Pair {
            a: moved(self.a, self.b),
            b: moved(self.b, self.a),
        }
    }
}

// X ⊕ Y.
impl BitXor for Pair {
    type Output = Self;

    ghost bitxor_gives = { λ x y r. pair_bytes r ≡ xor_l 8 (pair_bytes x) (pair_bytes y) };

    fn bitxor(self, other: Self) -> Self {
        Pair {
            a: self.a ^ other.a,
            b: self.b ^ other.b,
        }
    }
}

// s at each byte of a word.
fn s_word(table: &Table, w: u32) -> u32
    ensures { WordOf (substitution.s (w / 2 ^ 24)) (substitution.s (w / 2 ^ 16 % 2 ^ 8)) (substitution.s (w / 2 ^ 8 % 2 ^ 8)) (substitution.s (w % 2 ^ 8)) result }
{
    word(
        table.s(byte0(w)),
        table.s(byte1(w)),
        table.s(byte2(w)),
        table.s(byte3(w)),
    )
}

// The last three bytes of a word, and the first of another.
fn moved(a: u32, b: u32) -> u32
    ensures { WordOf (a / 2 ^ 16 % 2 ^ 8) (a / 2 ^ 8 % 2 ^ 8) (a % 2 ^ 8) (b / 2 ^ 24) result }
{
    word(byte1(a), byte2(a), byte3(a), byte0(b))
}
