// A text, character by character.
ghost use Rattle.std.specs.Prelude.{◌≡◌, ◌++◌, ◌*◌, ◌≤◌, ◌<◌, length, drop};
ghost use Rattle.hex_text.specs.Hex.{first_bad, digits, joined, Good};
ghost use Rattle.hex_text.specs.Hex.{byte as hex_byte};
ghost use Rattle.hex_text.specs.Steps.{NextDigit, NextByte};

use crate::characters;

// The place of the first character that is neither a digit nor white space, or the text's length.
pub fn first_bad(text: &[u8]) -> usize
    ensures { result ≡ first_bad text.now }
{
    for (i, c) in text.iter().enumerate() {
        if characters::is_bad(*c) {
            return i;
        }
    }
    text.len()
}

// How many characters are not white space.
#[tactic(auto, using(crate::proofs::Texts::digits_are))]
pub fn count(text: &[u8]) -> usize
    ensures { result ≡ length (digits text.now) }
{
    text.iter().filter(|c| !characters::is_white(**c)).count()
}

// The place of the next digit. (A `while`: there is one, which `position` would answer as an Option to be taken apart.)
fn digit_from(text: &[u8], from: usize) -> usize
    requires { 0 < length (digits (drop from text.now)) }
    ensures { NextDigit text.now from result }
{
    let mut i: usize = from;
    while characters::is_white(text[i]) {
        i += 1;
    }
    i
}

fn byte(high: u8, low: u8) -> u8
    requires { (high < 16) × (low < 16) }
    ensures { result ≡ hex_byte high low }
{
    high * 16 + low
}

// A byte, and the place behind its digits.
#[derive(Drop)]
struct Taken {
    byte: u8,
    next: usize,
}

// The byte of the next two digits.
fn byte_from(text: &[u8], from: usize) -> Taken
    requires { Good text.now × (2 ≤ length (digits (drop from text.now))) }
    ensures { NextByte text.now from result.byte result.next }
{
    let high = digit_from(text, from);
    let low = digit_from(text, high + 1);
    Taken {
        byte: byte(characters::value(text[high]), characters::value(text[low])),
        next: low + 1,
    }
}

// The n bytes of a text to the front of the output.
pub fn write(text: &[u8], n: usize, out: &mut [u8])
    requires { Good text.now × (length (digits text.now) ≡ 2 * n) × (n ≤ length out.old) }
    ensures { out.new ≡ joined (digits text.now) ++ drop n out.old }
{
    let mut i: usize = 0;
    for k in 0..n {
        let taken = byte_from(text, i);
        out[k] = taken.byte;
        i = taken.next;
    }
}
