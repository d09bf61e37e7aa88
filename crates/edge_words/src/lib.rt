// What the programs that show edge cases need: lines, bytes in hex, and the front of some bytes. A failed write is passed
// over: what is missing of a program's output shows by itself.
#![tactic(auto)]

use std::fmt;

// A part of a line.
pub fn say<D: fmt::Display + Drop>(rt: &impl Print, words: D) {
    let _ = rt.print(words);
}

// The end of a line, or all of it.
pub fn line<D: fmt::Display + Drop>(rt: &impl Print, words: D) {
    let _ = rt.println(words);
}

// Bytes in hex.
#[derive(Clone, Copy)]
pub struct Hex<'a>(pub &'a [u8]);

impl fmt::Display for Hex<'_> {
    fn fmt<W: fmt::Write>(&self, f: &mut fmt::Formatter<W>) -> fmt::Result {
        for byte in self.0 {
            write!(f, "{byte:02x}")?;
        }
        Ok(())
    }
}

// The first n bytes, or all of them.
pub fn front(bytes: &[u8], n: usize) -> &[u8] {
    bytes.get(..n).unwrap_or(bytes)
}
