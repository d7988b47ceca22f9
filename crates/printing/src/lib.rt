// What the programs print of an answer: words, the paper's number of a refusal and its place, one line
// an answer; and what they say on standard error where something fails. It promises nothing of what is
// written, which no contract can say. (What becomes of another width by `as`, here and in the programs, has no `from` in the
// library: it crosses between `usize` and a width that is named. A line of several numbers is put together where it is printed: one function
// for them would be public and have no contract.)
#![tactic(auto)]

use answers::Unaccepted;
use refusals::Refusal;
use std::io;
use std::io::{Cursor, Print, Write};

pub fn print_line(rt: &impl Print, words: &[u8]) -> io::Result<()> {
    rt.write_all(words)?;
    rt.write_all(b"\n")
}

// A space and a number.
pub fn print_value(rt: &impl Print, value: u64) -> io::Result<()> {
    print!(rt; " {value}")
}

// The line of a refusal, after the words that it begins with.
pub fn print_refused(rt: &impl Print, words: &[u8], refusal: Refusal) -> io::Result<()> {
    rt.write_all(words)?;
    print_value(rt, u64::from(refusing::number_of(refusal.fault)))?;
    print_value(rt, refusal.place as u64)?;
    rt.write_all(b"\n")
}

// "same, different, or refusal with 1st or 2nd input"
pub fn print_compared(rt: &impl Print, compared: Result<bool, Unaccepted>) -> io::Result<()> {
    match compared {
        Ok(true) => print_line(rt, b"same"),
        Ok(false) => print_line(rt, b"different"),
        Err(Unaccepted::First(refusal)) => print_refused(rt, b"refused 1", refusal),
        Err(Unaccepted::Second(refusal)) => print_refused(rt, b"refused 2", refusal),
    }
}

// Where standard output failed, standard error says why.
pub fn report(errors: &impl Print, printed: io::Result<()>) {
    if let Err(error) = printed {
        fail(errors, b"standard output", error);
    }
}

// A line of what failed, as the caller names it, a colon and why. What cannot be said there is lost.
pub fn fail(errors: &impl Print, what: &[u8], error: io::Error) {
    let _ = errors.write_all(what);
    let _ = errors.write_all(b": ");
    let _ = print_reason(errors, error);
    let _ = errors.write_all(b"\n");
}

// The error's words, without the number of the system's that std puts after them.
fn print_reason(errors: &impl Print, error: io::Error) -> io::Result<()> {
    let mut said = Cursor::new([0u8; 128]);
    let _ = write!(said, "{error}");
    let n = (said.position() as usize).min(128);
    let all = said.into_inner();
    let text = str::from_utf8(&all[..n]).unwrap_or("");
    match text.split_once(" (os error ") {
        Some((reason, _)) => errors.write_all(reason.as_bytes()),
        None => errors.write_all(text.as_bytes()),
    }
}
