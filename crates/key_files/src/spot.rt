// Where a person finds a character of a text.
ghost use Rattle.std.specs.Prelude.{◌<◌, length};

use recipe_words::outcome;

// A character that is no hex digit: its code, and its line and place there, counted from 1. A line feed ends a line,
// and any other byte takes one place.
pub fn tell(rt: &HostRuntime, about: &str, text: &[u8], at: usize)
    requires { at < length text.now }
{
    let before = &text[..at];
    let line = before.iter().filter(|c| **c == b'\n').count() + 1;
    let place = before.iter().rev().take_while(|c| **c != b'\n').count() + 1;
    let code = text[at];
    outcome::tell(
        rt,
        format_args!("failed character {about} {code} {line} {place}"),
    );
}
