// What a received file is (docs/SENT.md): a sent card whose seal is right, or why it is not, as far as seals can tell.
#![tactic(auto)]

ghost use Rattle.std.specs.Prelude.{◌≡◌, ◌+◌, ◌*◌, ◌≤◌, length, take, drop, IfSome};
ghost use Rattle.sent_cards.specs.Sent as sent;

use cipher::Schedule;
use seal::Seal;

#[derive(Drop)]
pub enum Verdict {
    Sealed,
    // So many bytes, which no sent card has.
    Length(usize),
    // The first so many bytes are a sent card, and more stands after them.
    Lengthened(usize),
    // It is sealed under the first key.
    Exchanged,
    // It is sealed under the second key by the cipher of this number.
    OtherCipher(u64),
    NotSealed,
}

#[tactic(auto, unfolding(crate::specs::Sent::is_length))]
fn is_length(n: usize) -> bool
    ensures { result ≡ sent.is_length n }
{
    n >= 32 && n <= 4128 && n % 16 == 0
}

// Whether the last 16 bytes are the seal of all in front of them.
#[tactic(auto, using(crate::proofs::Reached::sealed_by_calls))]
fn is_sealed(schedule: Schedule, file: &[u8]) -> bool
    requires { (32 ≤ length file.now) × (length file.now ≤ 4128) }
    ensures { result ≡ sent.sealed schedule file.now }
{
    let end = file.len();
    let n = end - 16;
    let begun = Seal::start(schedule);
    let fed = begun.seal.feed(&file[0..n]);
    let checked = fed.next.check(&file[n..end]);
    checked.yes
}

// Block n, counted from 0.
fn block(file: &[u8], n: usize) -> &[u8]
    requires { n * 16 + 16 ≤ length file.now }
    ensures { result.now ≡ take 16 (drop (n * 16) file.now) }
{
    let at = n * 16;
    &file[at..at + 16]
}

// The number of blocks of the shortest front, but not all, that is a sent card.
fn sealed_front(schedule: Schedule, file: &[u8]) -> Option<usize>
    requires { length file.now ≤ 4128 }
    ensures front { result ≡ sent.sealed_front schedule file.now }
    ensures within { IfSome result (λ blocks. blocks ≤ 258) }
{
    let blocks = file.len() / 16;
    let begun = Seal::start(schedule);
    let mut seal = begun.seal;
    for n in 0..blocks.saturating_sub(2) {
        let fed = seal.feed(block(file, n));
        seal = fed.next;
        let checked = seal.check(block(file, n + 1));
        if checked.yes {
            return Some(n + 2);
        }
    }
    None
}

// The first cipher under which the file is sealed with this key. One that refuses the key gives a bad schedule, which
// seals nothing.
fn sealed_by(key: &[u8], file: &[u8]) -> Option<u64>
    requires { (32 ≤ length file.now) × (length file.now ≤ 4128) }
    ensures { result ≡ sent.sealed_by key.now file.now }
{
    for number in 1..10 {
        let made = cipher::set_up(number, key);
        if is_sealed(made.schedule, file) {
            return Some(number);
        }
    }
    None
}

// Why a file is not sealed under the second key.
#[tactic(auto, using(crate::proofs::Verdicts::is_lengthened, crate::proofs::Verdicts::is_exchanged, crate::proofs::Verdicts::is_other, crate::proofs::Verdicts::is_nothing))]
fn explain(first: Schedule, second: Schedule, key: &[u8], file: &[u8]) -> Verdict
    requires { (32 ≤ length file.now) × (length file.now ≤ 4128) }
    ensures { result ≡ sent.explained first second key.now file.now }
{
    if let Some(blocks) = sealed_front(second, file) {
        return Verdict::Lengthened(blocks * 16);
    }
    if is_sealed(first, file) {
        return Verdict::Exchanged;
    }
    if let Some(number) = sealed_by(key, file) {
        return Verdict::OtherCipher(number);
    }
    Verdict::NotSealed
}

// What a file is under the schedules of two keys, of which the second, the seal's, is given too.
#[tactic(auto, using(crate::proofs::Verdicts::length_within, crate::proofs::Verdicts::is_no_length, crate::proofs::Verdicts::is_a_sent_card, crate::proofs::Verdicts::is_explained))]
pub fn judge(first: Schedule, second: Schedule, key: &[u8], file: &[u8]) -> Verdict
    ensures { result ≡ sent.verdict first second key.now file.now }
{
    let n = file.len();
    if !is_length(n) {
        return Verdict::Length(n);
    }
    if is_sealed(second, file) {
        return Verdict::Sealed;
    }
    explain(first, second, key, file)
}
