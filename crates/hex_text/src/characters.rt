// One character: white space, a digit, or neither.
ghost use Rattle.std.specs.Prelude.{◌≡◌, ◌≤◌};
ghost use Rattle.hex_text.specs.Hex.{white, bad};
ghost use Rattle.hex_text.specs.Hex.{value as hex_value};

pub fn is_white(c: u8) -> bool
    ensures { result ≡ white c }
{
    matches!(c, 9..=13 | 32)
}

// A digit's value, or 16 where it is none.
pub fn value(c: u8) -> u8
    ensures { (result ≡ hex_value c) × (result ≤ 16) }
{
    match c {
        b'0'..=b'9' => c - b'0',
        b'A'..=b'F' => c - b'A' + 10,
        b'a'..=b'f' => c - b'a' + 10,
        _ => 16,
    }
}

#[tactic(auto, unfolding(crate::specs::Hex::bad))]
pub fn is_bad(c: u8) -> bool
    ensures { result ≡ bad c }
{
    !is_white(c) && value(c) == 16
}
