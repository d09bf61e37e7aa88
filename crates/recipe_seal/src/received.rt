// A received file judged (docs/SENT.md), and the verdict told.
use key_files::keys::Pair;
use recipe_words::{files, outcome};
use sent_cards::Verdict;

const FILE: usize = 4;

// A byte more than the longest sent card has.
const SPACE: usize = 4129;

fn tell(rt: &HostRuntime, verdict: Verdict) {
    match verdict {
        Verdict::Sealed => outcome::tell(rt, "yes"),
        Verdict::Length(SPACE) => outcome::tell(rt, "long"),
        Verdict::Length(n) => outcome::tell(rt, format_args!("length {n}")),
        Verdict::Lengthened(n) => outcome::tell(rt, format_args!("lengthened {n}")),
        Verdict::Exchanged => outcome::tell(rt, "exchanged"),
        Verdict::OtherCipher(number) => outcome::tell(rt, format_args!("other {number}")),
        Verdict::NotSealed => outcome::tell(rt, "no"),
    }
}

// Under the two keys.
pub fn work(rt: &HostRuntime, keys: Pair) {
    let mut space = [0u8; SPACE];
    if let Some(n) = files::whole(rt, FILE, "message", true, &mut space) {
        let verdict = sent_cards::judge(keys.first, keys.second, keys.key, &space[..n]);
        tell(rt, verdict);
    }
}
