// What the apprentice changed: the differences of two recipe cards, as a list of records of four bytes (02, request 6).
#![tactic(auto)]

mod list;
mod merge;

ghost use Rattle.std.specs.Prelude.{◌≡◌, true, ◌≤◌, eqb, is_some, length, take};
ghost use Rattle.laws.specs.Choice.{choose};
ghost use Rattle.laws.specs.Bytes.{bytes_of};
ghost use Rattle.refusals.specs.Refusals.{done};
ghost use Rattle.refusals.specs.Numbers.{number};
ghost use Rattle.card.specs.code.Order.{JudgesTo};
ghost use Rattle.card_compare.specs.Compare.{differences};
ghost use Rattle.card_compare.specs.Promises.{Compares};

use refusals::Answer;

// The answer, and how many bytes were written: no Result, since `Compares` promises the number of a refused call too.
#[derive(Drop)]
pub struct Compared {
    pub answer: Answer,
    pub written: u64,
}

// The changes between two good cards at the front of `list`: how many. The keys are borrowed beside their number: two cards judged
// as values, a kilobyte each, would make a comparison of a few slots take twice the time.
fn changes(
    first: &[u8],
    second: &[u8],
    one: Option<usize>,
    two: Option<usize>,
    a: &[u32; 256],
    b: &[u32; 256],
    list: &mut [u32],
) -> usize
    requires { JudgesTo first.now one a.now × JudgesTo second.now two b.now × (length list.old ≡ 512) }
    ensures { (result ≤ 512)
        × (is_some one ≡ true → is_some two ≡ true → bytes_of (take result list.new) ≡ differences first.now second.now) }
{
    let Some(n) = one else {
        return 0;
    };
    let Some(m) = two else {
        return 0;
    };
    merge::changes(first, second, &a[..n], &b[..m], list)
}

// How many of n records are written: none where the call is refused.
fn to_write(answer: Answer, n: usize) -> usize
    ensures { (result ≤ n) × (result ≡ choose (eqb (number answer) done) n 0) }
{
    if answer.is_ok() { n } else { 0 }
}

// The differences of two cards at the front of the output, which keeps its bytes where this is refused.
pub fn compare(first: &[u8], second: &[u8], out: &mut [u8]) -> Compared
    ensures { Compares first.now second.now out.old (number result.answer) result.written out.new }
{
    let mut a = [0u32; 256];
    let mut b = [0u32; 256];
    let mut list = [0u32; 512];
    let one = card::judged(first, &mut a);
    let two = card::judged(second, &mut b);
    let n = changes(first, second, one, two, &a, &b, &mut list);
    let answer = card_orders::compare::first(!one.is_some(), !two.is_some(), out.len() < n * 4);
    let w = to_write(answer, n);
    list::write(&list[0..w], out);
    Compared {
        answer,
        written: w as u64 * 4,
    }
}
