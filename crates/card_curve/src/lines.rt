// The curve: a line for each going to a target, and for each hold.
ghost use Rattle.std.specs.Prelude.{length};
ghost use Rattle.std.specs.Iterator.{at_most};

use crate::scale::Scale;
use card_fields::Fields;
use card_segments::Segments;
use wording::Text;

// Where the kiln is, and when.
#[derive(Clone, Copy)]
pub struct Moment {
    pub seconds: u32,
    pub tenths: u16,
}

const BEGINNING: Moment = Moment {
    seconds: 0,
    tenths: firing::BEGINNING,
};

// A segment gone through: where the kiln is before it, where its target is reached, and where its hold is over.
#[derive(Clone, Copy)]
pub struct Step {
    pub fields: Fields,
    pub from: Moment,
    pub there: Moment,
    pub end: Moment,
}

impl Step {
    fn of(fields: Fields, from: Moment) -> Step {
        let going = firing::going(fields, from.tenths);
        let there = Moment {
            seconds: from.seconds.saturating_add(going),
            tenths: fields.target,
        };
        let end = Moment {
            seconds: there.seconds.saturating_add(firing::holding(fields)),
            tenths: fields.target,
        };
        Step {
            fields,
            from,
            there,
            end,
        }
    }
}

// The steps of a recipe, one after the other.
#[derive(Clone, Copy)]
pub struct Steps<'a> {
    segments: Segments<'a>,
    now: Moment,
}

impl<'a> Steps<'a> {
    pub fn of(segments: Segments<'a>) -> Steps<'a> {
        Steps {
            segments,
            now: BEGINNING,
        }
    }
}

impl Iterator for Steps<'_> {
    type Item = Step;

    ghost remaining = { λ s. at_most (length s.segments.keys.now) };

    fn next(&mut self) -> Option<Step> {
        let step = Step::of(self.segments.next()?, self.now);
        self.now = step.end;
        Some(step)
    }
}

fn between(out: &mut Text, text: &[u8], scale: Scale, from: Moment, to: Moment) {
    let x1 = scale.x(from.seconds);
    let y1 = scale.y(u32::from(from.tenths));
    let x2 = scale.x(to.seconds);
    let y2 = scale.y(u32::from(to.tenths));
    out.fill(text, &[x1, y1, x2, y2]);
}

// The line of a going: dotted where its time can't be said.
fn line(f: Fields, from: u16) -> &'static [u8] {
    match (firing::cause(f, from), f.kind) {
        (Some(_), _) =>
            b"<line class=\"unsaid\" x1=\"$\" y1=\"$\" x2=\"$\" y2=\"$\" stroke=\"#707070\" stroke-dasharray=\"2 14\"/>\n",
        (None, card_fields::DROP) =>
            b"<line class=\"drop\" x1=\"$\" y1=\"$\" x2=\"$\" y2=\"$\" stroke=\"#1f5fa8\"/>\n",
        (None, _) =>
            b"<line class=\"climb\" x1=\"$\" y1=\"$\" x2=\"$\" y2=\"$\" stroke=\"#b3261e\"/>\n",
    }
}

fn segment(out: &mut Text, scale: Scale, step: Step) {
    if step.from.tenths != step.there.tenths {
        between(
            out,
            line(step.fields, step.from.tenths),
            scale,
            step.from,
            step.there,
        );
    }
    if step.there.seconds != step.end.seconds {
        between(
            out,
            b"<line class=\"hold\" x1=\"$\" y1=\"$\" x2=\"$\" y2=\"$\" stroke=\"#d08700\"/>\n",
            scale,
            step.there,
            step.end,
        );
    }
}

pub fn draw(out: &mut Text, segments: Segments, scale: Scale) {
    out.words(b"<g stroke-width=\"7\" stroke-linecap=\"round\">\n");
    for step in Steps::of(segments) {
        segment(out, scale, step);
    }
    out.words(b"</g>\n");
}
