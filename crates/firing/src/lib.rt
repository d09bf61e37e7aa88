// How long a recipe takes (docs/BENCH.md).
#![tactic(auto)]

use card_fields::{CLIMB, DROP, Fields, HOLD};
use card_segments::Segments;

// 20.0 degrees.
pub const BEGINNING: u16 = 200;

// Why the time to a target can't be said.
#[derive(Clone, Copy)]
pub enum Reason {
    ClimbsDown,
    DropsUp,
    HoldsElsewhere,
    NoRate,
}

// The reason where the kiln is at `from` tenths, if there is one.
pub fn cause(f: Fields, from: u16) -> Option<Reason> {
    if f.target == from {
        return None;
    }
    match f.kind {
        CLIMB if f.target < from => Some(Reason::ClimbsDown),
        DROP if f.target > from => Some(Reason::DropsUp),
        HOLD => Some(Reason::HoldsElsewhere),
        _ if f.rate == 0 => Some(Reason::NoRate),
        _ => None,
    }
}

// The seconds for so many tenths at a rate, to the nearest, a half up; 0 without a rate.
fn seconds(from: u16, to: u16, rate: u16) -> u32 {
    if rate == 0 {
        return 0;
    }
    let rate = u32::from(rate);
    (u32::from(from.abs_diff(to)) * 7200 + rate) / (2 * rate)
}

// The seconds to a segment's target, or 0 where that can't be said.
pub fn going(f: Fields, from: u16) -> u32 {
    match cause(f, from) {
        Some(_) => 0,
        None => seconds(from, f.target, f.rate),
    }
}

pub fn holding(f: Fields) -> u32 {
    u32::from(f.hold) * 60
}

// A segment whose time can't be said, and where the kiln was before it.
#[derive(Clone, Copy)]
pub struct Unsaid {
    pub reason: Reason,
    pub segment: Fields,
    pub from: u16,
}

// A recipe gone through up to some segment: the seconds together, where the kiln is, the highest that it was; and the first
// segment whose time can't be said.
#[derive(Clone, Copy)]
pub struct Time {
    pub seconds: u32,
    pub now: u16,
    pub peak: u16,
    pub unsaid: Option<Unsaid>,
}

const BEGUN: Time = Time {
    seconds: 0,
    now: BEGINNING,
    peak: BEGINNING,
    unsaid: None,
};

// A segment more.
fn with(t: Time, segment: Fields) -> Time {
    let unsaid = cause(segment, t.now).map(|reason| Unsaid {
        reason,
        segment,
        from: t.now,
    });
    Time {
        seconds: t
            .seconds
            .saturating_add(going(segment, t.now))
            .saturating_add(holding(segment)),
        now: segment.target,
        peak: t.peak.max(segment.target),
        unsaid: t.unsaid.or(unsaid),
    }
}

pub fn takes(segments: Segments) -> Time {
    segments.fold(BEGUN, with)
}
