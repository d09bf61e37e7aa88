// What the arguments hold: cards and numbers.
ghost use Rattle.std.specs.Prelude.{IfSome};
ghost use Rattle.io.specs.Counts.{IsPrefixLen};

use recipe_words::{arguments, files, outcome};
use refusals::Refusal;
use spelling::number;

pub const CARD: usize = 2;

// How many bytes the card of an argument has, at the front of the space.
pub fn card(rt: &HostRuntime, argument: usize, space: &mut [u8]) -> Option<usize>
    ensures { IfSome result (λ n. IsPrefixLen n space.new) }
{
    files::whole(rt, argument, "card", true, space)
}

// Is the card good? A bad one is refused.
pub fn is_good(rt: &HostRuntime, card: &[u8], about: &str) -> bool {
    if card::good(card) {
        return true;
    }
    outcome::refused(rt, Refusal::BadCard, about, 0);
    false
}

// The whole number that an argument spells.
pub fn whole(rt: &HostRuntime, argument: usize, about: &str) -> Option<u64> {
    let mut space = [0u8; 4096];
    let n = arguments::lay(rt, argument, &mut space);
    let number = number::whole(&space[..n]);
    if number.is_none() {
        outcome::tell(rt, format_args!("failed number {about}"));
    }
    number
}
