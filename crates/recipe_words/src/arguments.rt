// What the words of a command mean: a direction, a cipher.
ghost use Rattle.std.specs.Prelude.{◌≡◌};
ghost use Rattle.io.specs.Counts.{IsPrefixLen};
ghost use Rattle.recipe_words.specs.Given.{direction_number, cipher_number};

use spelling::word;
use std::env::{Env, FillError};

// The places of the words that every command has.
pub const COMMAND: usize = 1;

pub const CIPHER: usize = 2;

pub const KEY_FILE: usize = 3;

// How many characters of an argument are laid at the front of a space. One that is missing, or longer than the space, is
// taken for an empty one. Told by their number, as std's `arg` does: the front of the space itself makes no caller shorter.
pub fn lay(rt: &impl Env, argument: usize, space: &mut [u8]) -> usize
    ensures { IsPrefixLen result space.new }
{
    rt.arg(argument, space).unwrap_or(0)
}

fn is_given(rt: &impl Env, argument: usize) -> bool {
    !matches!(rt.arg(argument, &mut []), Err(FillError::NotPresent))
}

// Whether the command has so many words, the program's name among them.
pub fn are(rt: &impl Env, words: usize) -> bool {
    if words == 0 {
        return !is_given(rt, 0);
    }
    is_given(rt, words - 1) && !is_given(rt, words)
}

// Whether an argument spells a name, in capitals or small letters. The name is given in small ones.
pub fn is(rt: &impl Env, argument: usize, name: &[u8]) -> bool {
    let mut space = [0u8; 4096];
    let n = lay(rt, argument, &mut space);
    word::is(&space[..n], name)
}

// A direction, with its number of 01.
#[derive(Clone, Copy, Debug, PartialEq, Eq)]
pub enum Direction {
    Encipher = 1,
    Decipher = 2,
}

impl Direction {
    // The one that the command's word names.
    pub fn given(rt: &impl Env) -> Option<Self> {
        if is(rt, COMMAND, b"encipher") {
            return Some(Self::Encipher);
        }
        if is(rt, COMMAND, b"decipher") {
            return Some(Self::Decipher);
        }
        None
    }

    // The number of the one that was given, or 0, which a call refuses.
    pub fn number(given: Option<Self>) -> u64
        ensures { result ≡ direction_number given }
    {
        match given {
            Some(direction) => direction as u64,
            None => 0,
        }
    }
}

// A cipher, with its number of 01, and of 02, request 2.
#[derive(Clone, Copy, Debug, PartialEq, Eq)]
pub enum Cipher {
    Hierocrypt3 = 1,
    E2 = 2,
    Noekeon = 3,
    NoekeonEarlier = 4,
}

impl Cipher {
    // The one that the command names, or gives by its number.
    pub fn given(rt: &impl Env) -> Option<Self> {
        if is(rt, CIPHER, b"hierocrypt3") || is(rt, CIPHER, b"1") {
            return Some(Self::Hierocrypt3);
        }
        if is(rt, CIPHER, b"e2") || is(rt, CIPHER, b"2") {
            return Some(Self::E2);
        }
        if is(rt, CIPHER, b"noekeon") || is(rt, CIPHER, b"3") {
            return Some(Self::Noekeon);
        }
        if is(rt, CIPHER, b"noekeon-earlier") || is(rt, CIPHER, b"4") {
            return Some(Self::NoekeonEarlier);
        }
        None
    }

    // The number of the one that was given, or 0, which a call refuses.
    pub fn number(given: Option<Self>) -> u64
        ensures { result ≡ cipher_number given }
    {
        match given {
            Some(cipher) => cipher as u64,
            None => 0,
        }
    }
}
