// The seal of a message to a file: in hex digits, or as its bytes.
use crate::message;
use cipher::Schedule;
use recipe_words::{files, outcome};
use seal::Seal;
use std::fs::File;

const MESSAGE: usize = 4;

const OUTPUT: usize = 5;

// How a seal is written.
#[derive(Clone, Copy, Debug, PartialEq, Eq)]
pub enum Form {
    // In 32 hex digits and a line feed.
    Digits,
    Bytes,
}

const DIGITS: [u8; 16] = *b"0123456789abcdef";

// Of the lower half.
fn digit(byte: u8) -> u8 {
    DIGITS[(byte % 16) as usize]
}

// By hand: std's `{:02x}` writes to a formatter, and this is a file's text, which is put in one write.
fn spelled(bytes: [u8; 16]) -> [u8; 33] {
    let mut text = [b'\n'; 33];
    for (digits, byte) in text.chunks_exact_mut(2).zip(&bytes) {
        digits[0] = digit(byte / 16);
        digits[1] = digit(*byte);
    }
    text
}

fn put(rt: &HostRuntime, to: &mut File, bytes: [u8; 16], form: Form) -> Option<()> {
    match form {
        Form::Digits => files::put(rt, to, &spelled(bytes)),
        Form::Bytes => files::put(rt, to, &bytes),
    }
}

fn end(rt: &HostRuntime, to: &mut File, seal: Seal, form: Form) {
    let mut bytes = [0u8; 16];
    let written = seal.write(&mut bytes);
    if let Err(refusal) = written.answer {
        outcome::refused(rt, refusal, "message", seal.count);
    } else if put(rt, to, bytes, form).is_some() {
        files::end(rt, to, seal.count);
    }
}

pub fn work(rt: &HostRuntime, schedule: Schedule, form: Form) {
    let Some(mut from) = files::input(rt, MESSAGE, "message", true) else {
        return;
    };
    let Some(mut to) = files::output(rt, OUTPUT) else {
        return;
    };
    if let Some(seal) = message::feed(rt, &mut from, schedule) {
        end(rt, &mut to, seal, form);
    }
}
