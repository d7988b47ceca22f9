// The inputs of a program: standard input, or a file that an argument names, read into a lent buffer;
// the arguments; and the number that an argument spells. It promises that what was read lies within the
// buffer, and which number a text is. Where an input cannot be read, standard error says why. What is done
// with the bytes is left to the programs.
#![tactic(auto)]

mod number;
mod wide;

ghost use Rattle.std.specs.Prelude.{IfSome};
ghost use Rattle.inputs.specs.Counts.{IsPrefixLen};

pub use number::number_of;
use std::env::FillError;
use std::fs::File;
use std::io;
use std::io::{Error, ErrorKind, Read};
use std::rt::Env;
pub use wide::wide_number_of;

// A byte more than the longest interchange, which is enough to see that an input is longer.
pub const ROOM: usize = 32001;

// Bytes enough for the name of any file.
const NAME_ROOM: usize = 4096;

// Where an input comes from; an argument is known by its number.
#[derive(Clone, Copy)]
pub enum Source {
    StandardInput,
    Argument(usize),
}

// How many arguments the program was started with, its own name among them.
pub fn argument_count(rt: &HostRuntime) -> usize {
    (0..usize::MAX)
        .find(|&i| !is_argument(rt, i))
        .unwrap_or(usize::MAX)
}

fn is_argument(rt: &HostRuntime, i: usize) -> bool {
    !matches!(rt.arg(i, &mut []), Err(FillError::NotPresent))
}

// Puts an argument at the start of the buffer and answers its length, if there is one and it is no longer
// than the buffer.
pub fn argument(rt: &HostRuntime, i: usize, buf: &mut [u8]) -> Option<usize>
    ensures { IfSome result (λ n. IsPrefixLen n buf.new) }
{
    rt.arg(i, buf).ok()
}

// Reads until the input ends or the buffer is full. (How much a read gives only it tells, so that this is no `for`.)
fn read_open<R: Read>(
    rt: &HostRuntime,
    reader: &mut R,
    name: &[u8],
    buf: &mut [u8],
) -> Option<usize>
    ensures { IfSome result (λ n. IsPrefixLen n buf.new) }
{
    let mut done = 0;
    while done < buf.len() {
        match reader.read(&mut buf[done..]) {
            Ok(0) => return Some(done),
            Ok(more) => done += more,
            Err(error) => {
                printing::fail(&rt.stderr(), name, error);
                return None;
            }
        }
    }
    Some(done)
}

// std opens a file by a name that is text.
fn open_file(rt: &HostRuntime, name: &[u8]) -> io::Result<File> {
    let text = str::from_utf8(name).map_err(|_| Error::from(ErrorKind::InvalidFilename))?;
    File::open(rt, text)
}

// What std says of an argument that does not fit a buffer, as the system says it of a file's name.
fn missing(why: FillError) -> Error {
    match why {
        FillError::NotPresent => Error::from_raw_os_error(22),
        FillError::TooLong => Error::from_raw_os_error(36),
    }
}

fn read_argument(rt: &HostRuntime, i: usize, buf: &mut [u8]) -> Option<usize>
    ensures { IfSome result (λ n. IsPrefixLen n buf.new) }
{
    let mut name = [0u8; NAME_ROOM];
    let n = match rt.arg(i, &mut name) {
        Ok(n) => n,
        Err(why) => {
            // Longer than the name of any file: its first bytes are there.
            printing::fail(&rt.stderr(), &name, missing(why));
            return None;
        }
    };
    match open_file(rt, &name[..n]) {
        Ok(mut file) => read_open(rt, &mut file, &name[..n], buf),
        Err(error) => {
            printing::fail(&rt.stderr(), &name[..n], error);
            None
        }
    }
}

// How many bytes of an input stand at the start of the buffer, if it could be read. (Each program has a `for` over its
// files and says by itself that one is unreadable: a function over a closure would be public and have no contract.)
pub fn read(rt: &HostRuntime, source: Source, buf: &mut [u8]) -> Option<usize>
    ensures { IfSome result (λ n. IsPrefixLen n buf.new) }
{
    match source {
        Source::StandardInput => read_open(rt, &mut rt.stdin(), b"standard input", buf),
        Source::Argument(i) => read_argument(rt, i, buf),
    }
}
