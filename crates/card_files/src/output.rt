// What is written, and the outcome after it.
use recipe_words::files;
use std::fs::File;

// Bytes to the file of an argument, with no outcome but that of a failure, where there is no file to end.
pub fn put(rt: &HostRuntime, argument: usize, bytes: &[u8]) -> Option<File> {
    let mut to = files::output(rt, argument)?;
    files::put(rt, &mut to, bytes)?;
    Some(to)
}

// The same, and that it is done.
pub fn all(rt: &HostRuntime, argument: usize, bytes: &[u8]) {
    if let Some(to) = put(rt, argument, bytes) {
        files::end(rt, &to, bytes.len() as u64);
    }
}
