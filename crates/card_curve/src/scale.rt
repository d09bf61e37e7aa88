// Where a time and a temperature stand in the picture.
ghost use Rattle.std.specs.Prelude.{◌<◌, ◌≤◌};

use firing::Time;

// The seconds from left to right, the tenths of a degree from bottom to top, the first peak; every how many tenths and
// seconds a line stands.
#[derive(Clone, Copy)]
pub struct Scale {
    span: u32,
    ceiling: u32,
    pub peak: u16,
    degrees: u32,
    hours: u32,
    ghost some: { (0 < span) × (0 < ceiling) × (0 < degrees) × (0 < hours) },
}

// Every how many hours a line stands, with at most twelve in the span.
fn hours(span: u32) -> u32
    ensures { (0 < result) × (result ≤ 100000) }
{
    for hours in [
        1, 2, 5, 10, 20, 50, 100, 200, 500, 1000, 2000, 5000, 10000, 20000, 50000,
    ] {
        if span <= hours * 43200 {
            return hours;
        }
    }
    100000
}

impl Scale {
    pub fn of(time: Time) -> Scale {
        let span = time.seconds.max(3600);
        let peak = u32::from(time.peak);
        let degrees = if peak < 5000 { 1000 } else { 2000 };
        Scale {
            span,
            // At least 100 degrees above the peak, on a line.
            ceiling: ((peak + 1000) / degrees + 1) * degrees,
            peak: time.peak,
            degrees,
            hours: hours(span) * 3600,
        }
    }

    // No further right than the span's end.
    pub fn x(self, seconds: u32) -> u64 {
        let span = u64::from(self.span);
        let n = (u64::from(seconds) * 1440 + span / 2) / span;
        120 + n.min(1440)
    }

    // No higher than the ceiling.
    pub fn y(self, tenths: u32) -> u64
        ensures { result ≤ 800 }
    {
        let ceiling = u64::from(self.ceiling);
        let n = (u64::from(tenths.min(self.ceiling)) * 660 + ceiling / 2) / ceiling;
        800 - n.min(660)
    }

    // At the tenths of each line of the degrees, from the lowest up: at most 9.
    pub fn at_degrees<F: FnMut(u32)>(self, draw: F)
        requires { F.IsAlwaysCallable draw }
    {
        at_lines(self.ceiling, self.degrees, draw);
    }

    // At the seconds of each line of the hours: at most 13.
    pub fn at_hours<F: FnMut(u32)>(self, draw: F)
        requires { F.IsAlwaysCallable draw }
    {
        at_lines(self.span, self.hours, draw);
    }
}

// At 0, one step, two steps, .. as far as a length goes.
fn at_lines<F: FnMut(u32)>(length: u32, step: u32, mut draw: F)
    requires nonzero { 0 < step }
    requires callable { F.IsAlwaysCallable draw }
{
    for n in 0..=length / step {
        draw(n * step);
    }
}
