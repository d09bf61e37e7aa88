// The files that are read and written; where the system refuses one, the outcome says so.
ghost use Rattle.std.specs.Prelude.{IfSome};
ghost use Rattle.io.specs.Counts.{IsPrefixLen};

use crate::{arguments, outcome};
use spelling::word;
use std::fs::File;
use std::io::{Error, Read, Stdin, Write};
use std::{io, str};

// What is read: standard input, or a file, which is closed when it is dropped.
#[derive(Drop)]
pub enum Source {
    Input(Stdin),
    File(File),
}

impl Read for Source {
    fn read(&mut self, bytes: &mut [u8]) -> io::Result<usize> {
        match self {
            Source::Input(input) => input.read(bytes),
            Source::File(file) => file.read(bytes),
        }
    }
}

// The system's number for bytes that are no text. A path of std is text, in UTF-8.
const NOT_TEXT: i32 = 84;

fn path(bytes: &[u8]) -> io::Result<&str> {
    str::from_utf8(bytes).map_err(|_| Error::from_raw_os_error(NOT_TEXT))
}

fn open(rt: &HostRuntime, name: &[u8]) -> io::Result<File> {
    File::open(rt, path(name)?)
}

fn create(rt: &HostRuntime, name: &[u8]) -> io::Result<File> {
    File::create(rt, path(name)?)
}

// The file that an argument names, open for reading; one that may be standard input is so where it is named `-`.
// None where it can't be opened.
pub fn input(rt: &HostRuntime, argument: usize, about: &str, may_be_stdin: bool) -> Option<Source> {
    let mut space = [0u8; 4096];
    let n = arguments::lay(rt, argument, &mut space);
    if may_be_stdin && word::is(&space[..n], b"-") {
        return Some(Source::Input(rt.stdin()));
    }
    let file = open(rt, &space[..n])
        .inspect_err(|error| outcome::failed(rt, "open", about, error))
        .ok()?;
    Some(Source::File(file))
}

fn not_written(rt: &HostRuntime, error: &Error) {
    outcome::failed(rt, "write", "out", error);
}

// The file to write, empty and open. None where it can't be opened.
pub fn output(rt: &HostRuntime, argument: usize) -> Option<File> {
    let mut space = [0u8; 4096];
    let n = arguments::lay(rt, argument, &mut space);
    create(rt, &space[..n])
        .inspect_err(|error| not_written(rt, error))
        .ok()
}

// What one read gives: no byte at the end. None where it failed. Here and below, bytes that are read are told by their
// number, as std's `read` does: the front of the space itself makes no caller shorter.
fn read(rt: &HostRuntime, from: &mut Source, about: &str, bytes: &mut [u8]) -> Option<usize>
    ensures { IfSome result (λ n. IsPrefixLen n bytes.new) }
{
    from.read(bytes)
        .inspect_err(|error| outcome::failed(rt, "read", about, error))
        .ok()
}

// The rest of a file, as far as the space goes. The bytes are counted, since a read may give fewer than there are:
// of std's own loops over reads one needs a Vec, and to the other an end is an error.
fn fill(rt: &HostRuntime, from: &mut Source, about: &str, space: &mut [u8]) -> Option<usize>
    ensures { IfSome result (λ n. IsPrefixLen n space.new) }
{
    let mut n = 0;
    while n < space.len() {
        let got = read(rt, from, about, &mut space[n..])?;
        if got == 0 {
            return Some(n);
        }
        n += got;
    }
    Some(n)
}

// How many bytes of the file that an argument names are laid at the front of the space, as far as this goes.
pub fn whole(
    rt: &HostRuntime,
    argument: usize,
    about: &str,
    may_be_stdin: bool,
    space: &mut [u8],
) -> Option<usize>
    ensures { IfSome result (λ n. IsPrefixLen n space.new) }
{
    let mut from = input(rt, argument, about, may_be_stdin)?;
    fill(rt, &mut from, about, space)
}

// What one read of a message gives: no byte at its end.
pub fn piece(rt: &HostRuntime, from: &mut Source, bytes: &mut [u8]) -> Option<usize>
    ensures { IfSome result (λ n. IsPrefixLen n bytes.new) }
{
    read(rt, from, "message", bytes)
}

// Bytes written to a file.
pub fn put(rt: &HostRuntime, to: &mut File, bytes: &[u8]) -> Option<()> {
    to.write_all(bytes)
        .inspect_err(|error| not_written(rt, error))
        .ok()
}

// The end of what is written, which is on its device before it is called done.
pub fn end(rt: &HostRuntime, to: &File, count: u64) {
    match to.sync_all() {
        Ok(()) => outcome::tell(rt, format_args!("done {count}")),
        Err(error) => not_written(rt, &error),
    }
}
