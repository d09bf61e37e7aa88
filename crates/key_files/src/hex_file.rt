// A file of hex digits: of a key, of two keys in two lines, or of a first block.
ghost use Rattle.std.specs.Prelude.{◌≤◌, length, IfSome};
ghost use Rattle.key_files.specs.Spelled.{Spelled};

use crate::line::Lines;
use crate::spot;
use hex_digits::Misspelled;
use recipe_words::{files, outcome};

fn too_long(rt: &HostRuntime, about: &str) {
    outcome::tell(rt, format_args!("failed long {about}"));
}

// How many bytes a text spells; where it spells none, the outcome says why.
fn spelled(rt: &HostRuntime, about: &str, text: &[u8], bytes: &mut [u8]) -> Option<usize>
    ensures { Spelled text.now bytes.old result bytes.new }
{
    match hex_digits::read(text, bytes) {
        Ok(n) => return Some(n),
        Err(Misspelled::BadCharacter(place)) => spot::tell(rt, about, text, place),
        Err(Misspelled::OddDigits(n)) => outcome::tell(
            rt,
            format_args!("failed digits {about} {n}"),
        ),
        Err(Misspelled::NoRoom(_)) => too_long(rt, about),
    }
    None
}

// The text of the file that an argument names, over a space of white space; one that leaves no place free may go on,
// and is too long.
fn text_of(rt: &HostRuntime, argument: usize, about: &str, text: &mut [u8]) -> Option<()> {
    let n = files::whole(rt, argument, about, false, text)?;
    if n == text.len() {
        too_long(rt, about);
        return None;
    }
    Some(())
}

// The bytes of all lines of a text, or of one of two, laid at the front of the space.
fn bytes_of<'a>(
    rt: &HostRuntime,
    about: &str,
    text: &mut [u8],
    lines: Lines,
    space: &'a mut [u8],
) -> Option<&'a [u8]>
    ensures { IfSome result (λ bytes. length bytes.now ≤ length space.old) }
{
    let count = lines.keep(text);
    if lines != Lines::All && count != 2 {
        outcome::tell(rt, format_args!("failed lines {count}"));
        return None;
    }
    let n = spelled(rt, about, text, space)?;
    Some(&space[..n])
}

// The bytes of the file that an argument names, of all of its lines or of one of two.
pub fn read<'a>(
    rt: &HostRuntime,
    argument: usize,
    about: &str,
    lines: Lines,
    space: &'a mut [u8],
) -> Option<&'a [u8]>
    ensures { IfSome result (λ bytes. length bytes.now ≤ length space.old) }
{
    let mut text = [b' '; 4096];
    text_of(rt, argument, about, &mut text)?;
    bytes_of(rt, about, &mut text, lines, space)
}

// The bytes of both lines of the file that an argument names.
pub fn read_two<'a, 'b>(
    rt: &HostRuntime,
    argument: usize,
    about: &str,
    first: &'a mut [u8],
    second: &'b mut [u8],
) -> Option<(&'a [u8], &'b [u8])>
    ensures first { IfSome result (λ keys. length keys.0.now ≤ length first.old) }
    ensures second { IfSome result (λ keys. length keys.1.now ≤ length second.old) }
{
    let mut text = [b' '; 4096];
    text_of(rt, argument, about, &mut text)?;
    let mut again = text;
    let one = bytes_of(rt, about, &mut text, Lines::First, first)?;
    let two = bytes_of(rt, about, &mut again, Lines::Second, second)?;
    Some((one, two))
}
