// Noekeon, direct key (003; 02, request 2): one block both ways in one of its two versions, on four words of 32 bits by value, and the round keys.
#![tactic(auto)]

ghost use Rattle.std.specs.Prelude.{◌≡◌, ◌≤◌, length, get_or};
ghost use Rattle.laws.specs.Places.{tab};
ghost use Rattle.noekeon_steps.specs.Rule.{rule_of};
ghost use Rattle.noekeon_steps.specs.Steps.{first_xored, θ, zero_key};
ghost use Rattle.noekeon.specs.Noekeon.{mixed, cipher, cipher⁻, load, store, encipher, decipher};

use noekeon_steps::{Quad, Version};
use words::word::{put, word_at};

// What the first word is xored with, of the published rule.
const CONSTANTS: [u32; 17] = [
    0x80, 0x1b, 0x36, 0x6c, 0xd8, 0xab, 0x4d, 0x9a, 0x2f, 0x5e, 0xbc, 0x63, 0xc6, 0x97, 0x35, 0x6a,
    0xd4,
];

// A Noekeon at work: which one, and the constants of its rule.
#[derive(Drop)]
pub struct Noekeon {
    pub version: Version,
    constants: [u32; 17],
    ghost are_its_own: { constants ≡ (rule_of version).constants },
}

impl Noekeon {
    // The earlier rule has zeros.
    pub fn new(version: Version) -> Self
        ensures { (result.version ≡ version) × (result.constants ≡ (rule_of version).constants) }
    {
        let constants = match version {
            Version::Published => CONSTANTS,
            Version::Earlier => [0u32; 17],
        };
        Noekeon { version, constants }
    }

    // One block enciphered.
    pub fn encipher(&self, keys: &[u8; 288], block: [u8; 16]) -> [u8; 16]
        ensures { result ≡ encipher (rule_of self.now.version) keys.now block }
    {
        let p = load(&block);
        let q = self.forth(load(keys), p);
        store(q)
    }

    // One block deciphered.
    pub fn decipher(&self, keys: &[u8; 288], block: [u8; 16]) -> [u8; 16]
        ensures { result ≡ decipher (rule_of self.now.version) keys.now block }
    {
        let p = load(&block);
        let q = self.back(load(keys), p);
        store(q)
    }

    // The sixteen rounds and the last θ.
    fn forth(&self, k: Quad, p: Quad) -> Quad
        ensures { result ≡ cipher (rule_of self.now.version) k p }
    {
        let version = self.version;
        let mut q = p;
        for i in 0..16 {
            q = mix(constant_then_theta(version, self.constants[i], k, q));
        }
        constant_then_theta(version, self.constants[16], k, q)
    }

    // The same under θ(0, K), with the constants backwards. The next one is read a round ahead, so that nothing waits for it.
    fn back(&self, k: Quad, p: Quad) -> Quad
        ensures { result ≡ cipher⁻ (rule_of self.now.version) (θ (rule_of self.now.version) zero_key k) p }
    {
        let version = self.version;
        let mut q = p;
        let mut c = self.constants[16];
        for j in 0..16 {
            q = mix(version.theta_then_constant(k, q, c));
            c = self.constants[15 - j];
        }
        version.theta_then_constant(k, q, c)
    }
}

// What follows θ in a round.
fn mix(p: Quad) -> Quad
    ensures { result ≡ mixed p }
{
    p.pi1().gamma().pi2()
}

fn constant_then_theta(version: Version, c: u32, k: Quad, p: Quad) -> Quad
    ensures { result ≡ θ (rule_of version) k (first_xored c p) }
{
    version.theta(k, Quad { p0: p.p0 ^ c, ..p })
}

// Four words, of a block or of K at the front of the round keys.
fn load(bytes: &[u8]) -> Quad
    requires { 16 ≤ length bytes.now }
    ensures { result ≡ load bytes.now }
{
    Quad {
        p0: word_at(bytes, 0),
        p1: word_at(bytes, 4),
        p2: word_at(bytes, 8),
        p3: word_at(bytes, 12),
    }
}

fn store(p: Quad) -> [u8; 16]
    ensures { result ≡ store p }
{
    let mut r = [0u8; 16];
    put(&mut r, 0, p.p0);
    put(&mut r, 4, p.p1);
    put(&mut r, 8, p.p2);
    put(&mut r, 12, p.p3);
    r
}

// K at the front, and zeros.
pub fn round_keys(key: &[u8]) -> [u8; 288]
    ensures { result ≡ tab 288 (λ n. get_or key.now n 0) }
{
    let mut r = [0u8; 288];
    let n = key.len().min(288);
    r[..n].copy_from_slice(&key[..n]);
    r
}
