// Seals files and checks their seals, marks sent cards and receives them (docs/SENT.md). Its arguments: a command, the
// cipher, the key file, and
//     seal IN OUT      the seal of IN in hex digits to OUT, under the key that all of the key file is
//     check SEAL IN    whether SEAL is the seal of IN, under that key
//     keys             whether the key file has two keys that may be used
//     mark IN OUT      the seal of IN, 16 bytes, to OUT, under the second of two keys
//     receive IN       whether IN is a sent card, and if not, why
// Standard output carries the outcome, and no more.
#![tactic(auto)]

mod received;

use key_files::keys;
use recipe_words::{arguments, outcome};
use seal_files::write::Form;
use seal_files::{given, write};

#[derive(Clone, Copy, Debug, PartialEq, Eq)]
enum Command {
    Seal,
    Check,
    Keys,
    Mark,
    Receive,
}

// Whether the command has this name and so many words, the program's among them.
fn is(rt: &HostRuntime, name: &[u8], words: usize) -> bool {
    arguments::are(rt, words) && arguments::is(rt, arguments::COMMAND, name)
}

impl Command {
    fn given(rt: &HostRuntime) -> Option<Self> {
        if is(rt, b"seal", 6) {
            return Some(Self::Seal);
        }
        if is(rt, b"check", 6) {
            return Some(Self::Check);
        }
        if is(rt, b"keys", 4) {
            return Some(Self::Keys);
        }
        if is(rt, b"mark", 6) {
            return Some(Self::Mark);
        }
        if is(rt, b"receive", 5) {
            return Some(Self::Receive);
        }
        None
    }

    // A file is sealed, or its seal checked, under the one key; a card is marked or received under two keys, or these are
    // no more than looked at. None where there are no such keys.
    fn run(self, rt: &HostRuntime) -> Option<()> {
        let mut space = [0u8; 2048];
        match self {
            Self::Seal => write::work(rt, keys::one(rt)?, Form::Digits),
            Self::Check => given::work(rt, keys::one(rt)?),
            Self::Keys => {
                keys::two(rt, &mut space)?;
                outcome::tell(rt, "done 0");
            }
            Self::Mark => write::work(rt, keys::two(rt, &mut space)?.second, Form::Bytes),
            Self::Receive => received::work(rt, keys::two(rt, &mut space)?),
        }
        Some(())
    }
}

fn main(rt: HostRuntime) {
    match Command::given(&rt) {
        Some(command) => {
            command.run(&rt);
        }
        None => outcome::tell(&rt, "usage"),
    }
}
