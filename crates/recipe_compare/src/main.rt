// Two cards compared by the proved call, and its list in words (docs/BENCH.md): compare A B OUT. Standard output carries the
// outcome.
#![tactic(auto)]

ghost use Rattle.std.specs.Prelude.{IfSome};
ghost use Rattle.io.specs.Counts.{IsPrefixLen};

use card_files::{input, output};
use card_show::changes;
use recipe_words::{arguments, files, outcome};
use std::io::Error;
use wording::Text;

const FIRST: usize = 2;

const SECOND: usize = 3;

const OUT: usize = 4;

// The system's number for a file that is not open.
const NOT_OPEN: i32 = 9;

fn show(rt: &HostRuntime, first: &[u8], second: &[u8], list: &[u8]) {
    let mut space = [0u8; 65536];
    let mut out = Text::new(&mut space);
    changes::show(&mut out, first, second, list);
    if output::put(rt, OUT, out.written()).is_some() {
        outcome::tell(rt, if list.is_empty() { "none" } else { "some" });
    }
}

fn compare_two(rt: &HostRuntime, first: &[u8], second: &[u8]) {
    if !input::is_good(rt, first, "first") {
        return;
    }
    if !input::is_good(rt, second, "second") {
        return;
    }
    let mut list = [0u8; 2048];
    let compared = card_compare::compare(first, second, &mut list);
    if let Err(refusal) = compared.answer {
        outcome::refused(rt, refusal, "card", 0);
        return;
    }
    let n = (compared.written as usize).min(2048);
    show(rt, first, second, &list[..n]);
}

fn is_stdin(rt: &HostRuntime, argument: usize) -> bool {
    arguments::is(rt, argument, b"-")
}

// The second card. Standard input is read to its end once, and can't be the second card too.
fn second(rt: &HostRuntime, space: &mut [u8]) -> Option<usize>
    ensures { IfSome result (λ n. IsPrefixLen n space.new) }
{
    if is_stdin(rt, FIRST) && is_stdin(rt, SECOND) {
        let error = Error::from_raw_os_error(NOT_OPEN);
        outcome::failed(rt, "read", "second", &error);
        return None;
    }
    files::whole(rt, SECOND, "second", true, space)
}

fn main(rt: HostRuntime) {
    let mut one = [0u8; 4113];
    let mut two = [0u8; 4113];
    let Some(n) = files::whole(&rt, FIRST, "first", true, &mut one) else {
        return;
    };
    let Some(m) = second(&rt, &mut two) else {
        return;
    };
    compare_two(&rt, &one[..n], &two[..m]);
}
