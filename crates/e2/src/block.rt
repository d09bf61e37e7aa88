// One block (001, 'Алгоритм зашифрования' and 'Алгоритм расшифрования'): F, the rounds, the first and the last step. Deciphering is the same
// algorithm with the keys in another order, which `Order` says.
ghost use Rattle.std.specs.Prelude.{◌≡◌, suc, ◌/◌, ◌%◌, ◌^◌, ◌≤◌, ◌<◌};
ghost use Rattle.laws.specs.Places.{tab};
ghost use Rattle.laws.specs.Bytes.{xor_l};
ghost use Rattle.laws.specs.Rounds.{feistel};
ghost use Rattle.words.specs.Word.{WordOf};
ghost use Rattle.e2_steps.specs.Steps.{BP, BP⁻};
ghost use Rattle.e2_steps.specs.code.Layout.{pair_bytes, quad_bytes};
ghost use Rattle.e2.specs.Block.{F, first, last, cipher, sequence, round_key};
ghost use Rattle.e2.specs.code.Layout.{block_bytes, is_back};

use e2_steps::half::Pair;
use e2_steps::quad::Quad;
use e2_table::Table;
use words::word::{byte0, byte1, byte2, byte3, word};

// The order in which k1 .. k16 are taken.
#[derive(Clone, Copy)]
pub enum Order {
    Enciphering,
    Deciphering,
}

impl Order {
    // Which of k1 .. k16 stands in place i.
    fn sequence(self, i: usize) -> usize
        requires { (0 < i) × (i ≤ 16) }
        ensures { (result ≡ sequence (is_back self) i) × (0 < result) × (result ≤ 16) }
    {
        match self {
            Order::Enciphering => i,
            Order::Deciphering if i < 13 => 13 - i,
            Order::Deciphering => 29 - i,
        }
    }
}

// L and R.
#[derive(Clone, Copy)]
pub struct Halves {
    pub l: Pair,
    pub r: Pair,
}

// Key number i.
fn key(keys: &[u8; 288], i: usize) -> Quad
    requires { (0 < i) × (i ≤ 16) }
    ensures { quad_bytes result ≡ round_key keys.now i }
{
    Quad::load(keys, (i - 1) * 16)
}

// The first byte of the first word, the second of the second, and so on.
fn diagonal(a: u32, b: u32, c: u32, d: u32) -> u32
    ensures { WordOf (a / 2 ^ 24) (b / 2 ^ 16 % 2 ^ 8) (c / 2 ^ 8 % 2 ^ 8) (d % 2 ^ 8) result }
{
    word(byte0(a), byte1(b), byte2(c), byte3(d))
}

// BP, from words to halves.
fn bp(w: Quad) -> Halves
    ensures { block_bytes result ≡ BP (quad_bytes w) }
{
    let l = Pair {
        a: diagonal(w.a, w.b, w.c, w.d),
        b: diagonal(w.b, w.c, w.d, w.a),
    };
    let r = Pair {
        a: diagonal(w.c, w.d, w.a, w.b),
        b: diagonal(w.d, w.a, w.b, w.c),
    };
    Halves { l, r }
}

// BP's inverse, from halves to words.
fn bp_inverse(x: Halves) -> Quad
    ensures { quad_bytes result ≡ BP⁻ (block_bytes x) }
{
    let l = x.l;
    let r = x.r;
    Quad {
        a: diagonal(l.a, r.b, r.a, l.b),
        b: diagonal(l.b, l.a, r.b, r.a),
        c: diagonal(r.a, l.b, l.a, r.b),
        d: diagonal(r.b, r.a, l.b, l.a),
    }
}

// F(x, k), for key number i.
fn f(table: &Table, keys: &[u8; 288], i: usize, x: Pair) -> Pair
    requires { (0 < i) × (i ≤ 16) }
    ensures { pair_bytes result ≡ F (pair_bytes x) (round_key keys.now i) }
{
    let at = (i - 1) * 16;
    let a = x ^ Pair::load(keys, at);
    let b = a.s(table);
    let c = b.p() ^ Pair::load(keys, at + 8);
    c.s(table).brl()
}

// 1. M := BP((M ⊕ k13) ⊗ k14). The keys and their order are two parameters: a model of both has no value, since it would be 001's k, a function, and without one
// each clause would reach either through a struct.
fn first(keys: &[u8; 288], order: Order, block: [u8; 16]) -> Halves
    ensures { block_bytes result ≡ first (λ i. round_key keys.now (sequence (is_back order) i)) block }
{
    let k13 = key(keys, order.sequence(13));
    let k14 = key(keys, order.sequence(14));
    bp((Quad::load(&block, 0) ^ k13).times(k14))
}

// 2. The twelve rounds, with the halves left in their places after the last.
fn rounds(table: &Table, keys: &[u8; 288], order: Order, m: Halves) -> Halves
    ensures { (pair_bytes result.l, pair_bytes result.r)
        ≡ feistel F (xor_l 8) (tab 12 (λ i. round_key keys.now (sequence (is_back order) (suc i)))) (pair_bytes m.l, pair_bytes m.r) }
{
    let mut l = m.l;
    let mut r = m.r;
    for i in 0..12 {
        let n = l ^ f(table, keys, order.sequence(i + 1), r);
        l = r;
        r = n;
    }
    Halves { l: r, r: l }
}

// 3. C := (BP⁻(M) ⊘ k15) ⊕ k16.
fn last(keys: &[u8; 288], order: Order, m: Halves) -> [u8; 16]
    ensures { result ≡ last (λ i. round_key keys.now (sequence (is_back order) i)) (block_bytes m) }
{
    let k15 = key(keys, order.sequence(15));
    let k16 = key(keys, order.sequence(16));
    (bp_inverse(m).over(k15) ^ k16).store()
}

// The whole algorithm, with the keys in the order of enciphering or of deciphering.
pub fn cipher(table: &Table, keys: &[u8; 288], order: Order, block: [u8; 16]) -> [u8; 16]
    ensures { result ≡ cipher (λ i. round_key keys.now (sequence (is_back order) i)) block }
{
    let m = first(keys, order, block);
    let n = rounds(table, keys, order, m);
    last(keys, order, n)
}
