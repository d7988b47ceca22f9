// Respells interchanges: `respell SERVICE [FILE ..]` reads the values of each file, or of standard input
// where none is named, and writes them under the six bytes SERVICE, as an advice has them: `;*.! ~`.
// It prints the text written, and on the next line what Compare says of the input and that text: `same`,
// or `different` where the marks differ. What Read refuses is `refused input NUMBER PLACE`, what Write
// refuses `refused text NUMBER PLACE`. The line of an input that cannot be read is `unreadable`, and
// standard error says why. It also says how the program is used where SERVICE is no six usable bytes,
// before anything is read. It ends with status 0 whatever it says.
#![tactic(auto)]

ghost use Rattle.run_respell.specs.Respelled.{Fitting};

use answers::Unaccepted;
use inputs::{ROOM, Source};
use printing::{print_compared, print_line, print_refused};
use refusals::{Fault, Refusal};
use std::io;
use std::io::Print;

// What refused: Read the input, or Write the text.
#[derive(Clone, Copy)]
pub enum Unwritten {
    Input(Refusal),
    Text(Refusal),
}

// What Compare says of an input and a text: whether they have the same normal form. The input is the
// first `count` bytes of `buf`; the two normal forms take the place of what is in `spare` and `buf`, so
// that no room of Compare's own is needed beside the four buffers below.
fn compare_in_place(
    buf: &mut [u8],
    count: usize,
    spare: &mut [u8],
    text: &[u8],
) -> Result<bool, Unaccepted> {
    if buf.len() < count {
        return Ok(false);
    }
    let n = normalise::normalise(spare, &buf[..count]).map_err(Unaccepted::First)?;
    compare_text(&spare[..n], buf, text)
}

fn compare_text(first: &[u8], buf: &mut [u8], text: &[u8]) -> Result<bool, Unaccepted> {
    let n = normalise::normalise(buf, text).map_err(Unaccepted::Second)?;
    Ok(texts::equal(first, &buf[..n]))
}

fn print_text(
    rt: &impl Print,
    text: &[u8],
    buf: &mut [u8],
    count: usize,
    spare: &mut [u8],
) -> io::Result<()> {
    print_line(rt, text)?;
    print_compared(rt, compare_in_place(buf, count, spare, text))
}

fn write_values(
    service: &[u8],
    bytes: &[u8],
    table: &[u32],
    output: &mut [u8],
) -> Result<usize, Unwritten>
    ensures { Fitting result output.new }
{
    write::write(service, bytes, table, output).map_err(Unwritten::Text)
}

// An interchange of 32,000 bytes has at most as many bytes in values, and as many values, each of which
// some byte ends: Read finds neither this table nor 32,000 bytes of room too short.
fn respell_into(
    service: &[u8],
    input: &[u8],
    bytes: &mut [u8],
    output: &mut [u8],
) -> Result<usize, Unwritten>
    ensures { Fitting result output.new }
{
    let mut table = [0u32; refusals::MOST_NUMBERS];
    let listed = read::read(bytes, &mut table, input).map_err(Unwritten::Input)?;
    write_values(
        service,
        &bytes[..listed.bytes],
        &table[..listed.numbers],
        output,
    )
}

// The stack. Whatever the compiler takes into one frame, the program holds four buffers and what Write
// needs besides: the input, the table, the text, and one that has the values first and then a normal
// form, 480,001 bytes in all. No text is longer than 32,000 bytes, so that Write never finds its buffer
// too short.
fn respell(rt: &impl Print, service: &[u8], buf: &mut [u8], count: usize) -> io::Result<()> {
    let mut output = [0u8; refusals::MOST_BYTES];
    let mut spare = [0u8; refusals::MOST_BYTES];
    if buf.len() < count {
        return Err(io::Error::from(io::ErrorKind::InvalidInput));
    }
    match respell_into(service, &buf[..count], &mut spare, &mut output) {
        Ok(n) => print_text(rt, &output[..n], buf, count, &mut spare),
        Err(Unwritten::Input(refusal)) => print_refused(rt, b"refused input", refusal),
        Err(Unwritten::Text(refusal)) => print_refused(rt, b"refused text", refusal),
    }
}

fn respell_input(rt: &HostRuntime, service: &[u8], source: Source) {
    let mut buf = [0u8; ROOM];
    let Some(n) = inputs::read(rt, source, &mut buf) else {
        printing::report(&rt.stderr(), print_line(rt, b"unreadable"));
        return;
    };
    printing::report(&rt.stderr(), respell(rt, service, &mut buf, n));
}

// Write under these bytes, of no value at all, is refused for another reason than the bytes.
fn are_usable(service: &[u8]) -> bool {
    let mut output = [0u8; 9];
    !matches!(
        write::write(service, b"", &[], &mut output),
        Err(Refusal {
            fault: Fault::UnusableAdvice,
            ..
        })
    )
}

fn main(rt: HostRuntime) {
    // An argument that is missing, or longer than this buffer, is no service either: it is taken as no byte.
    let mut service = [0u8; 8];
    let n = inputs::argument(&rt, 1, &mut service).unwrap_or(0);
    if !are_usable(&service[..n]) {
        let _ = rt.stderr().write_all(
            b"usage: run_respell SERVICE [FILE ..], where SERVICE is six usable bytes as ';*.! ~'\n",
        );
        return;
    }
    let count = inputs::argument_count(&rt);
    if count < 3 {
        respell_input(&rt, &service[..n], Source::StandardInput);
    }
    for i in 2..count {
        respell_input(&rt, &service[..n], Source::Argument(i));
    }
}
