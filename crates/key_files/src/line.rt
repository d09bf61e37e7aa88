// The lines of a text that have something in them: anything but spaces, tabs and carriage returns.

fn is_blank(c: u8) -> bool {
    matches!(c, b' ' | b'\t' | b'\r' | b'\n')
}

// Which of them are taken: all, or one of two.
#[derive(Clone, Copy, Debug, PartialEq, Eq)]
pub enum Lines {
    All,
    First,
    Second,
}

impl Lines {
    // Is the line of that number, counted from 1, taken?
    fn has(self, number: usize) -> bool {
        match self {
            Self::All => true,
            Self::First => number == 1,
            Self::Second => number == 2,
        }
    }

    // Spaces over every line but those taken, so that their characters keep their places. How many lines have something
    // in them.
    pub fn keep(self, text: &mut [u8]) -> usize {
        let mut lines = 0;
        let mut begun = false;
        for c in text {
            if !begun && !is_blank(*c) {
                begun = true;
                lines += 1;
            }
            if *c == b'\n' {
                begun = false;
            } else if !self.has(lines) {
                *c = b' ';
            }
        }
        lines
    }
}
