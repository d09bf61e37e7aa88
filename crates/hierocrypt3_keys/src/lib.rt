// Hierocrypt-3's round keys: 002, section 2.3, in its order and names. Nothing here needs to be fast.
#![tactic(auto)]

ghost use Rattle.std.specs.Prelude.{◌≡◌, ◌+◌, ◌/◌, ◌≤◌, ◌<◌, length, get_or};
ghost use Rattle.laws.specs.Places.{tab};
ghost use Rattle.words.specs.KeyLength.{KeyLength};
ghost use Rattle.hierocrypt3_keys.specs.code.Placed.{Placed, pieces};
ghost use Rattle.hierocrypt3_keys.specs.Keys.{t_turn, padding, σ0, σ, σ⁻, next, plaintext_side, ciphertext_side, key_of, round_keys};

use crate::operations::{
    f_sigma, m5e, mb3, p32_first, p32_inverse_first, p32_inverse_second, p32_second,
};
use hierocrypt3_tables::constants::{G0, H2_H3, H3_H2, Length, constant};
use hierocrypt3_tables::forward::Sbox;
use runs::part;
use words::bytes::xor;

mod operations;

// An intermediate key, Z1 to Z4 (002, section 2.3).
#[derive(Clone, Copy)]
pub struct Intermediate {
    pub z1: [u8; 8],
    pub z2: [u8; 8],
    pub z3: [u8; 8],
    pub z4: [u8; 8],
}

// A round key, K1 to K4 (002, section 2.3).
#[derive(Clone, Copy)]
pub struct RoundKey {
    pub k1: [u8; 8],
    pub k2: [u8; 8],
    pub k3: [u8; 8],
    pub k4: [u8; 8],
}

// Padding (section 2.3.2).
fn padding(key: &[u8]) -> Intermediate
    requires { KeyLength (length key.now) }
    ensures { result ≡ padding key.now }
{
    let k1 = part(key, 0);
    let k2 = part(key, 8);
    if key.len() == 16 {
        let h = H3_H2;
        return Intermediate {
            z1: k1,
            z2: k2,
            z3: k1,
            z4: h,
        };
    }
    let k3 = part(key, 16);
    if key.len() == 24 {
        let h = H2_H3;
        return Intermediate {
            z1: k1,
            z2: k2,
            z3: k3,
            z4: h,
        };
    }
    let k4 = part(key, 24);
    Intermediate {
        z1: k1,
        z2: k2,
        z3: k3,
        z4: k4,
    }
}

// Pre-whitening, with the constant g (section 2.3.2).
fn pre_whitening(sbox: &Sbox, g: [u8; 8], z: Intermediate) -> Intermediate
    ensures { result ≡ σ0 g z }
{
    let z1 = z.z1;
    let z2 = z.z2;
    let z3 = z.z3;
    let z4 = z.z4;
    let y3 = xor(m5e(z3), g);
    let y2 = xor(z1, f_sigma(sbox, xor(z2, y3)));
    let y4 = m5e(z4);
    Intermediate {
        z1: z2,
        z2: y2,
        z3: y3,
        z4: y4,
    }
}

// σ, with the constant g (section 2.3.3).
fn sigma(sbox: &Sbox, g: [u8; 8], z: Intermediate) -> Intermediate
    ensures { result ≡ σ g z }
{
    let z1 = z.z1;
    let z2 = z.z2;
    let z3 = z.z3;
    let z4 = z.z4;
    let w1 = p32_first(z3, z4);
    let w2 = p32_second(z3, z4);
    pre_whitening(
        sbox,
        g,
        Intermediate {
            z1,
            z2,
            z3: w1,
            z4: w2,
        },
    )
}

// The inverse of σ, with the constant g (section 2.3.3).
fn sigma_inverse(sbox: &Sbox, g: [u8; 8], z: Intermediate) -> Intermediate
    ensures { result ≡ σ⁻ g z }
{
    let z1 = z.z1;
    let z2 = z.z2;
    let z3 = z.z3;
    let z4 = z.z4;
    let w1 = mb3(xor(z3, g));
    let w2 = mb3(z4);
    let y1 = xor(z2, f_sigma(sbox, xor(z1, z3)));
    let y3 = p32_inverse_first(w1, w2);
    let y4 = p32_inverse_second(w1, w2);
    Intermediate {
        z1: y1,
        z2: z1,
        z3: y3,
        z4: y4,
    }
}

// The round key of a step on the plaintext side (section 2.3.4).
fn plaintext_side(sbox: &Sbox, before: Intermediate, z: Intermediate) -> RoundKey
    ensures { pieces result ≡ plaintext_side before z }
{
    let b1 = before.z1;
    let b2 = before.z2;
    let z3 = z.z3;
    let z4 = z.z4;
    let v = f_sigma(sbox, xor(b2, z3));
    let k1 = xor(b1, v);
    let k2 = xor(z3, v);
    let k3 = xor(z4, v);
    let k4 = xor(b2, z4);
    RoundKey { k1, k2, k3, k4 }
}

// The round key of a step on the ciphertext side (section 2.3.4).
fn ciphertext_side(sbox: &Sbox, g: [u8; 8], before: Intermediate, z: Intermediate) -> RoundKey
    ensures { pieces result ≡ ciphertext_side g before z }
{
    let b1 = before.z1;
    let b3 = before.z3;
    let b4 = before.z4;
    let z1 = z.z1;
    let v = f_sigma(sbox, xor(b1, b3));
    let w1 = mb3(xor(b3, g));
    let w2 = mb3(b4);
    let k1 = xor(z1, b3);
    let k2 = xor(w1, v);
    let k3 = xor(w2, v);
    let k4 = xor(b1, w2);
    RoundKey { k1, k2, k3, k4 }
}

// The last step of the plaintext side.
fn t_turn(length: Length) -> usize
    ensures { result ≡ t_turn length.bytes }
{
    if length.bytes == 32 {
        return 5;
    }
    4
}

// Step t + 1 on an intermediate key.
fn next(sbox: &Sbox, length: Length, t: usize, z: Intermediate) -> Intermediate
    requires { t < length.bytes / 8 + 5 }
    ensures { result ≡ next length.bytes (t + 1) z }
{
    let g = constant(length, t);
    if t < t_turn(length) {
        return sigma(sbox, g, z);
    }
    sigma_inverse(sbox, g, z)
}

// Round key t + 1, from the intermediate keys before and after step t + 1.
fn round_key(
    sbox: &Sbox,
    length: Length,
    t: usize,
    before: Intermediate,
    z: Intermediate,
) -> RoundKey
    requires { t < length.bytes / 8 + 5 }
    ensures { pieces result ≡ key_of length.bytes (t + 1) before z }
{
    if t < t_turn(length) {
        return plaintext_side(sbox, before, z);
    }
    ciphertext_side(sbox, constant(length, t), before, z)
}

// A piece put at `at` among the keys.
fn put(keys: &mut [u8; 288], at: usize, k: [u8; 8])
    requires { at + 8 ≤ 288 }
    ensures { Placed at 8 k keys.old keys.new }
{
    keys[at..at + 8].copy_from_slice(&k);
}

// A round key put at `at` among the keys.
fn put_key(keys: &mut [u8; 288], at: usize, k: RoundKey)
    requires { at + 32 ≤ 288 }
    ensures { Placed at 32 (pieces k) keys.old keys.new }
{
    put(keys, at, k.k1);
    put(keys, at + 8, k.k2);
    put(keys, at + 16, k.k3);
    put(keys, at + 24, k.k4);
}

// The round keys 1 to T + 1 of a key, 32 bytes each; the rest is zero.
pub fn round_keys(key: &[u8]) -> [u8; 288]
    requires { KeyLength (length key.now) }
    ensures { result ≡ tab 288 (λ n. get_or (round_keys key.now) n 0) }
{
    let sbox = Sbox::new();
    let length = Length::new(key.len());
    let mut z = pre_whitening(&sbox, G0[5], padding(key));
    let mut keys = [0u8; 288];
    for t in 0..key.len() / 8 + 5 {
        let before = z;
        z = next(&sbox, length, t, before);
        put_key(&mut keys, t * 32, round_key(&sbox, length, t, before, z));
    }
    keys
}
