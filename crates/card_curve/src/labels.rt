// The peak's disc, and the labels of peak and holds.
ghost use Rattle.std.specs.Prelude.{◌≤◌};

use crate::lines::{Moment, Step, Steps};
use crate::scale::Scale;
use card_segments::Segments;
use wording::Text;

// On which side of the line a label stands, and how far from it its degrees and its minutes.
#[derive(Clone, Copy)]
enum Side {
    Above,
    Below,
}

impl Side {
    fn of(step: Step) -> Side {
        if step.there.tenths < step.from.tenths {
            Side::Below
        } else {
            Side::Above
        }
    }

    fn degrees(self, y: u64) -> u64
        requires { y ≤ 800 }
    {
        match self {
            Side::Above => y.saturating_sub(44),
            Side::Below => y + 34,
        }
    }

    fn minutes(self, y: u64) -> u64
        requires { y ≤ 800 }
    {
        match self {
            Side::Above => y.saturating_sub(16),
            Side::Below => y + 62,
        }
    }
}

fn disc(out: &mut Text, scale: Scale, m: Moment) {
    let x = scale.x(m.seconds);
    let y = scale.y(u32::from(m.tenths));
    out.fill(b"<circle cx=\"$\" cy=\"$\" r=\"9\"/>\n", &[x, y]);
}

// A text that ends at x, with degrees in it.
fn degrees(out: &mut Text, x: u64, y: u64, tenths: u16, peak: bool) {
    let text: &[u8] = if peak {
        b"<text x=\"$\" y=\"$\">peak ~</text>\n"
    } else {
        b"<text x=\"$\" y=\"$\">~</text>\n"
    };
    out.fill(text, &[x, y, u64::from(tenths)]);
}

// The label of a hold.
fn hold(out: &mut Text, scale: Scale, step: Step, peak: bool) {
    let x = scale.x(step.end.seconds);
    let y = scale.y(u32::from(step.end.tenths));
    let side = Side::of(step);
    degrees(out, x, side.degrees(y), step.end.tenths, peak);
    out.fill(
        b"<text x=\"$\" y=\"$\">$ min</text>\n",
        &[x, side.minutes(y), u64::from(step.fields.hold)],
    );
}

// The label of a peak that isn't held.
fn touched(out: &mut Text, scale: Scale, m: Moment) {
    let x = scale.x(m.seconds);
    let y = scale.y(u32::from(m.tenths));
    degrees(out, x, y.saturating_sub(16), m.tenths, true);
}

// A segment's disc and label.
fn label(out: &mut Text, scale: Scale, step: Step, peak: bool) {
    if peak {
        disc(out, scale, step.there);
    }
    if step.fields.hold > 0 {
        hold(out, scale, step, peak);
    } else if peak {
        touched(out, scale, step.there);
    }
}

pub fn draw(out: &mut Text, segments: Segments, scale: Scale) {
    out.words(
        b"<g fill=\"#202020\" stroke=\"#ffffff\" stroke-width=\"6\" paint-order=\"stroke\" stroke-linejoin=\"round\" text-anchor=\"end\">\n",
    );
    let mut reached = false;
    for step in Steps::of(segments) {
        let at_peak = step.there.tenths == scale.peak;
        label(out, scale, step, at_peak && !reached);
        reached = reached || at_peak;
    }
    out.words(b"</g>\n");
}
