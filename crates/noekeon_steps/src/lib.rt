// Noekeon's steps (003) on four words of 32 bits by value: θ, γ, π1 and π2. θ is that of one of the two versions: the published one, or the earlier one.
#![tactic(auto)]

ghost use Rattle.std.specs.Prelude.{◌≡◌};
ghost use Rattle.noekeon_steps.specs.Rule.{rule_of};
ghost use Rattle.noekeon_steps.specs.Steps.{S, θ, zero_key, first_xored, γ, π1, π2};

use words::word::rotated;

// The two Noekeons: as its designers published it, and by the earlier rule.
#[derive(Clone, Copy)]
pub enum Version {
    Published,
    Earlier,
}

// P0 P1 P2 P3, by 003's names. E2 has four words too, by others, which its contracts see as bytes: one type for both would be plainer in neither.
#[derive(Clone, Copy)]
pub struct Quad {
    pub p0: u32,
    pub p1: u32,
    pub p2: u32,
    pub p3: u32,
}

impl Version {
    // S of θ: by rotations, or by plain shifts.
    fn spread(self, t: u32) -> u32
        ensures { result ≡ S (rule_of self) t }
    {
        match self {
            Version::Published => t ^ rotated(t, 24) ^ rotated(t, 8),
            Version::Earlier => t ^ (t >> 8) ^ (t << 8),
        }
    }

    // S once more, as published in one instruction less but by a longer way: for the one of θ's two that nothing waits for.
    fn spread_aside(self, t: u32) -> u32
        ensures { result ≡ S (rule_of self) t }
    {
        match self {
            Version::Published => t ^ rotated(t ^ rotated(t, 16), 24),
            Version::Earlier => self.spread(t),
        }
    }

    pub fn theta(self, k: Quad, p: Quad) -> Quad
        ensures { result ≡ θ (rule_of self) k p }
    {
        let t = self.spread(p.p0 ^ p.p2);
        let q1 = p.p1 ^ t ^ k.p1;
        let q3 = p.p3 ^ t ^ k.p3;
        let u = self.spread_aside(q1 ^ q3);
        Quad {
            p0: p.p0 ^ k.p0 ^ u,
            p1: q1,
            p2: p.p2 ^ k.p2 ^ u,
            p3: q3,
        }
    }

    // θ under θ(0, K), by K alone, which is 003's θ⁻¹, and then a constant: a step of deciphering.
    pub fn theta_then_constant(self, k: Quad, p: Quad, c: u32) -> Quad
        ensures { result ≡ first_xored c (θ (rule_of self) (θ (rule_of self) zero_key k) p) }
    {
        let t = self.spread_aside(p.p1 ^ p.p3);
        let q0 = p.p0 ^ t ^ k.p0;
        let q2 = p.p2 ^ t ^ k.p2;
        let u = self.spread(q0 ^ q2);
        Quad {
            p0: q0 ^ c,
            p1: p.p1 ^ k.p1 ^ u,
            p2: q2,
            p3: p.p3 ^ k.p3 ^ u,
        }
    }
}

impl Quad {
    pub fn gamma(self) -> Self
        ensures { result ≡ γ self }
    {
        let q1 = self.p1 ^ !(self.p2 | self.p3);
        let r3 = self.p0 ^ (q1 & self.p2);
        let r2 = self.p3 ^ q1 ^ self.p2 ^ r3;
        let r1 = q1 ^ !(r2 | r3);
        Quad {
            p0: self.p3 ^ (r1 & r2),
            p1: r1,
            p2: r2,
            p3: r3,
        }
    }

    pub fn pi1(self) -> Self
        ensures { result ≡ π1 self }
    {
        Quad {
            p0: self.p0,
            p1: rotated(self.p1, 1),
            p2: rotated(self.p2, 5),
            p3: rotated(self.p3, 2),
        }
    }

    // To the right by n is to the left by 32 - n.
    pub fn pi2(self) -> Self
        ensures { result ≡ π2 self }
    {
        Quad {
            p0: self.p0,
            p1: rotated(self.p1, 31),
            p2: rotated(self.p2, 27),
            p3: rotated(self.p3, 30),
        }
    }
}
