// A text of hex digits as bytes: two digits to a byte, the first the higher, white space ignored.
#![tactic(auto)]

ghost use Rattle.hex_digits.specs.Read.{Read};

use hex_text::text;

// Why a text spells no bytes.
#[derive(Clone, Copy)]
pub enum Misspelled {
    // The place, from 0, of the first character that is neither a digit nor white space.
    BadCharacter(usize),
    // How many digits, an odd number.
    OddDigits(usize),
    // How many bytes, more than the output has room for.
    NoRoom(usize),
}

// The bytes of a text to the front of the output, and how many; where the text spells none, the output is left as it was.
pub fn read(text: &[u8], out: &mut [u8]) -> Result<usize, Misspelled>
    ensures { Read text.now out.old result out.new }
{
    let bad = text::first_bad(text);
    if bad < text.len() {
        return Err(Misspelled::BadCharacter(bad));
    }
    let digits = text::count(text);
    if digits % 2 == 1 {
        return Err(Misspelled::OddDigits(digits));
    }
    if out.len() < digits / 2 {
        return Err(Misspelled::NoRoom(digits / 2));
    }
    text::write(text, digits / 2, out);
    Ok(digits / 2)
}
