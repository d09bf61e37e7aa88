// Enciphers or deciphers a message from file to file. Its arguments: encipher or decipher, the cipher, the key file,
// `all` of which is the key or of which line `1` of two is, the first block's file, the message's file, the file to
// write. Standard output carries the outcome, and no more.
#![tactic(auto)]

use key_files::line::Lines;
use key_files::{hex_file, schedule};
use recipe_words::{arguments, outcome};

// The places of the words that no other command has.
const WHICH: usize = 4;

const FIRST_FILE: usize = 5;

// With the key of all lines of the key file, or of one of two.
fn work(rt: &HostRuntime, lines: Lines) {
    let mut space = [0u8; 2048];
    let Some(key) = hex_file::read(rt, arguments::KEY_FILE, "keys", lines, &mut space) else {
        return;
    };
    let mut space = [0u8; 2048];
    let Some(first) = hex_file::read(rt, FIRST_FILE, "first", Lines::All, &mut space) else {
        return;
    };
    if let Some(schedule) = schedule::of(rt, key, "key") {
        chain_files::start(rt, schedule, first);
    }
}

// Which lines of the key file are the key, if the command has all of its words.
fn which(rt: &HostRuntime) -> Option<Lines> {
    if !arguments::are(rt, 8) {
        return None;
    }
    if arguments::is(rt, WHICH, b"all") {
        return Some(Lines::All);
    }
    if arguments::is(rt, WHICH, b"1") {
        return Some(Lines::First);
    }
    None
}

fn main(rt: HostRuntime) {
    match which(&rt) {
        Some(lines) => work(&rt, lines),
        None => outcome::tell(&rt, "usage"),
    }
}
