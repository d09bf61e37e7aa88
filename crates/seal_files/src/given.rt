// Whether a given word is the seal of a message.
ghost use Rattle.std.specs.Prelude.{IfSome};
ghost use Rattle.io.specs.Counts.{IsPrefixLen};

use crate::message;
use cipher::Schedule;
use hex_digits::Misspelled;
use recipe_words::{arguments, files, outcome};
use seal::Seal;

const GIVEN: usize = 4;

const MESSAGE: usize = 5;

fn bad_character(rt: &HostRuntime, word: &[u8], place: usize) {
    if let Some(code) = word.get(place) {
        let place = place as u64 + 1;
        outcome::tell(rt, format_args!("failed seal {code} {place}"));
    }
}

// How many bytes a word spells; where it spells none, the outcome says why. (That of a file's text says it in other
// words, and where: with them as parameters one function for both is no plainer.)
fn spelled(rt: &HostRuntime, word: &[u8], bytes: &mut [u8]) -> Option<usize>
    ensures { IfSome result (λ n. IsPrefixLen n bytes.new) }
{
    match hex_digits::read(word, bytes) {
        Ok(n) => return Some(n),
        Err(Misspelled::BadCharacter(place)) => bad_character(rt, word, place),
        Err(Misspelled::OddDigits(n)) => outcome::tell(rt, format_args!("failed seal-digits {n}")),
        Err(Misspelled::NoRoom(_)) => outcome::tell(rt, "failed long seal"),
    }
    None
}

fn end(rt: &HostRuntime, seal: Seal, given: &[u8]) {
    let checked = seal.check(given);
    match checked.answer {
        Ok(()) => outcome::tell(rt, if checked.yes { "yes" } else { "no" }),
        Err(refusal) => outcome::refused(rt, refusal, "message", seal.count),
    }
}

fn message_of(rt: &HostRuntime, schedule: Schedule, given: &[u8]) {
    let Some(mut from) = files::input(rt, MESSAGE, "message", true) else {
        return;
    };
    if let Some(seal) = message::feed(rt, &mut from, schedule) {
        end(rt, seal, given);
    }
}

// A word of more than 4,096 characters is taken for an empty one, which is no seal either.
pub fn work(rt: &HostRuntime, schedule: Schedule) {
    let mut word = [0u8; 4096];
    let n = arguments::lay(rt, GIVEN, &mut word);
    let mut bytes = [0u8; 2048];
    if let Some(m) = spelled(rt, &word[..n], &mut bytes) {
        message_of(rt, schedule, &bytes[..m]);
    }
}
