// The outcome in one line on standard output, of words and numbers, of which the command `recipe` makes a sentence.
// No line repeats a word of the call, which may be a key that was typed where its file is wanted. A failed write of it is
// passed over: who waits for the outcome finds none.
use refusals::Refusal;
use std::fmt::Display;
use std::io::Error;

// The line. (So is `edge_words::line`: a crate that both stand on, for one call of std, is no plainer.)
pub fn tell<D: Display + Drop>(rt: &impl Print, line: D) {
    let _ = rt.println(line);
}

// A refusal. `length` is that of the key, the first block or the message; beside 8 it is the limit.
pub fn refused(rt: &impl Print, refusal: Refusal, about: &str, length: u64) {
    let number = refusal.number();
    tell(rt, format_args!("refused {number} {about} {length}"));
}

// The system's number of an error, or 0 where it has none.
fn number_of(error: &Error) -> u64 {
    let number = error.raw_os_error().unwrap_or(0);
    u64::try_from(number).unwrap_or(0)
}

// What the system could not do to a file, and why.
pub fn failed(rt: &impl Print, deed: &str, about: &str, error: &Error) {
    let number = number_of(error);
    tell(rt, format_args!("failed {deed} {about} {number}"));
}
