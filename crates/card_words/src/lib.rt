// A segment in words, and how long a recipe takes (docs/BENCH.md).
#![tactic(auto)]

ghost use Rattle.card_fields.specs.Kinds.{kind_text};
ghost use Rattle.wording.specs.Added.{Adds};

use card_fields::Fields;
use firing::{Reason, Time, Unsaid};
use wording::Text;

pub fn kind(out: &mut Text, kind: u8)
    ensures { Adds (kind_text kind) out.old out.new }
{
    match kind {
        card_fields::CLIMB => out.words(b"climb"),
        card_fields::HOLD => out.words(b"hold"),
        _ => out.words(b"drop"),
    }
}

fn climb_or_drop(out: &mut Text, f: Fields) {
    kind(out, f.kind);
    out.fill(b" to ~ degrees at ", &[u64::from(f.target)]);
    match f.rate {
        0 => out.words(b"no set rate"),
        rate => out.fill(b"~ an hour", &[u64::from(rate)]),
    }
    if f.hold != 0 {
        out.fill(b", hold $ min", &[u64::from(f.hold)]);
    }
}

fn hold(out: &mut Text, f: Fields) {
    out.fill(
        b"hold at ~ degrees for $ min",
        &[u64::from(f.target), u64::from(f.hold)],
    );
    if f.rate != 0 {
        out.fill(b", rate ~ an hour", &[u64::from(f.rate)]);
    }
}

pub fn segment(out: &mut Text, f: Fields) {
    if f.kind == card_fields::HOLD {
        hold(out, f);
    } else {
        climb_or_drop(out, f);
    }
}

fn why(out: &mut Text, unsaid: Unsaid) {
    let segment = u64::from(unsaid.segment.segment);
    let target = u64::from(unsaid.segment.target);
    let from = u64::from(unsaid.from);
    match unsaid.reason {
        Reason::ClimbsDown => out.fill(b"$ climbs from ~ to ~", &[segment, from, target]),
        Reason::DropsUp => out.fill(b"$ drops from ~ to ~", &[segment, from, target]),
        Reason::HoldsElsewhere => out.fill(
            b"$ holds at ~, and the kiln is at ~",
            &[segment, target, from],
        ),
        Reason::NoRate => out.fill(b"$ has no rate", &[segment]),
    }
}

// How long it takes, to the nearest minute, a half up, or why that can't be said.
pub fn time(out: &mut Text, t: Time) {
    match t.unsaid {
        None => {
            let minutes = (u64::from(t.seconds) + 30) / 60;
            out.fill(b"$ h $ min from 20 degrees", &[minutes / 60, minutes % 60]);
        }
        Some(unsaid) => {
            out.words(b"how long it takes cannot be said: segment ");
            why(out, unsaid);
        }
    }
}
