// E2's round keys (001, 'Вычисление раундовых подключей', with 01's repairs): K with what a short key lacks, G, q0 .. q31 and k1 .. k16.
#![tactic(auto)]

ghost use Rattle.std.specs.Prelude.{◌≡◌, ◌+◌, ◌≤◌, length, get_or, [], ◌∷◌};
ghost use Rattle.laws.specs.Bytes.{bytes_of};
ghost use Rattle.laws.specs.Places.{tab, part, quarters};
ghost use Rattle.words.specs.KeyLength.{KeyLength};
ghost use Rattle.e2_steps.specs.Steps.{S, P};
ghost use Rattle.e2_steps.specs.code.Layout.{pair_bytes};
ghost use Rattle.e2_keys.specs.Keys.{g, full_key, Y, L, round_keys};
ghost use Rattle.e2_keys.specs.code.Layout.{four_halves, apart};

use e2_steps::half::Pair;
use e2_table::Table;
use words::word::{byte0, byte1, byte2, byte3};

// Four sub-blocks of 8 bytes: K, or the X, the L and the Y of G.
#[derive(Clone, Copy)]
pub struct Four {
    pub x0: Pair,
    pub x1: Pair,
    pub x2: Pair,
    pub x3: Pair,
}

// 001's g.
fn constant() -> Pair
    ensures { pair_bytes result ≡ g }
{
    Pair {
        a: 0x01234567,
        b: 0x89abcdef,
    }
}

// K2: of the key, or S three times on the constant. (No type for a key of a legal length: what it would take off these steps,
// `round_keys`, which callers give any such key, would have to build.)
fn k2(table: &Table, key: &[u8]) -> Pair
    requires { KeyLength (length key.now) }
    ensures { pair_bytes result ≡ part 0 16 8 (full_key key.now) }
{
    if key.len() < 24 {
        return constant().s(table).s(table).s(table);
    }
    Pair::load(key, 16)
}

// K3: of the key, or S four times on the constant.
fn k3(table: &Table, key: &[u8]) -> Pair
    requires { KeyLength (length key.now) }
    ensures { pair_bytes result ≡ part 0 24 8 (full_key key.now) }
{
    if key.len() < 32 {
        return constant().s(table).s(table).s(table).s(table);
    }
    Pair::load(key, 24)
}

// K = (K0, K1, K2, K3).
fn full_key(table: &Table, key: &[u8]) -> Four
    requires { KeyLength (length key.now) }
    ensures { four_halves result ≡ quarters 0 8 (full_key key.now) }
{
    Four {
        x0: Pair::load(key, 0),
        x1: Pair::load(key, 8),
        x2: k2(table, key),
        x3: k3(table, key),
    }
}

// P(S(x)).
fn ps(table: &Table, x: Pair) -> Pair
    ensures { pair_bytes result ≡ P (S (pair_bytes x)) }
{
    x.s(table).p()
}

// The Y of G(X, U): Yi := P(S(Xi)).
fn g_y(table: &Table, x: Four) -> Four
    ensures { four_halves result ≡ Y (four_halves x) }
{
    Four {
        x0: ps(table, x.x0),
        x1: ps(table, x.x1),
        x2: ps(table, x.x2),
        x3: ps(table, x.x3),
    }
}

// The L of G(X, U), from its Y: L0 := Y0 ⊕ P(S(U)), Li := P(S(L(i-1))) ⊕ Yi. Its V is L3.
fn g_l(table: &Table, y: Four, u: Pair) -> Four
    ensures { four_halves result ≡ L (four_halves y) (pair_bytes u) }
{
    let l0 = y.x0 ^ ps(table, u);
    let m1 = ps(table, l0);
    let l1 = m1 ^ y.x1;
    let m2 = ps(table, l1);
    let l2 = m2 ^ y.x2;
    let m3 = ps(table, l2);
    let l3 = m3 ^ y.x3;
    Four {
        x0: l0,
        x1: l1,
        x2: l2,
        x3: l3,
    }
}

// The bytes of a word put in 32 places apart.
fn put_word(keys: &mut [u8], at: usize, w: u32)
    requires { at + 97 ≤ length keys.old }
    ensures { keys.new ≡ apart keys.old at (bytes_of (w ∷ [])) }
{
    let b = at + 32;
    let c = b + 32;
    let d = c + 32;
    keys[at] = byte0(w);
    keys[b] = byte1(w);
    keys[c] = byte2(w);
    keys[d] = byte3(w);
}

// One of q0 .. q31 put into the round keys: its bytes go to every other key.
fn put(keys: &mut [u8], at: usize, x: Pair)
    requires { at + 225 ≤ length keys.old }
    ensures { keys.new ≡ apart keys.old at (pair_bytes x) }
{
    put_word(keys, at, x.a);
    put_word(keys, at + 128, x.b);
}

// Four of them, the even ones into k1, k3, .. and the odd ones into k2, k4, ..
fn put_four(keys: &mut [u8], at: usize, l: Four)
    requires { at + 242 ≤ length keys.old }
    ensures { keys.new
        ≡ apart (apart (apart (apart keys.old at (pair_bytes l.x0)) (at + 16) (pair_bytes l.x1)) (at + 1) (pair_bytes l.x2))
        (at + 17) (pair_bytes l.x3) }
{
    put(keys, at, l.x0);
    put(keys, at + 16, l.x1);
    put(keys, at + 1, l.x2);
    put(keys, at + 17, l.x3);
}

// The round keys of a key of 16, 24 or 32 bytes: k1 .. k16, and zeros after them. G on K and the constant, and then eight times on the Y and the V that came of
// it, gives q0 .. q31.
pub fn round_keys(key: &[u8]) -> [u8; 288]
    requires { KeyLength (length key.now) }
    ensures { result ≡ tab 288 (λ n. get_or (round_keys key.now) n 0) }
{
    let table = Table::new();
    let mut y = g_y(&table, full_key(&table, key));
    let mut l = g_l(&table, y, constant());
    let mut r = [0u8; 288];
    for i in 0..8 {
        y = g_y(&table, y);
        l = g_l(&table, y, l.x3);
        put_four(&mut r, i * 2, l);
    }
    r
}
