// The message of a seal: read and fed piece by piece.
use cipher::Schedule;
use recipe_words::files::Source;
use recipe_words::{files, outcome, progress};
use seal::Seal;

// A piece fed. The next seal.
fn piece(rt: &HostRuntime, seal: Seal, bytes: &[u8]) -> Option<Seal> {
    let fed = seal.feed(bytes);
    if let Err(refusal) = fed.answer {
        outcome::refused(rt, refusal, "message", Seal::LIMIT);
        return None;
    }
    progress::show(rt, seal.count, fed.next.count);
    Some(fed.next)
}

// All that is read, fed. Each turn but the last takes a byte or more, and the seal takes LIMIT of them, so the turns
// suffice.
fn pieces(rt: &HostRuntime, from: &mut Source, seal: &mut Seal) -> Option<()> {
    for _ in 0..=Seal::LIMIT {
        let mut bytes = [0u8; 4096];
        let n = files::piece(rt, from, &mut bytes)?;
        if n == 0 {
            return Some(());
        }
        *seal = piece(rt, *seal, &bytes[..n])?;
    }
    None
}

// The seal of all of a message, neither written nor checked yet.
pub fn feed(rt: &HostRuntime, from: &mut Source, schedule: Schedule) -> Option<Seal> {
    let begun = Seal::start(schedule);
    if let Err(refusal) = begun.answer {
        outcome::refused(rt, refusal, "key", 0);
        return None;
    }
    let mut seal = begun.seal;
    let fed = pieces(rt, from, &mut seal);
    progress::wipe(rt, seal.count);
    fed?;
    Some(seal)
}
