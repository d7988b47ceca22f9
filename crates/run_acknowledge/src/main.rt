// Acknowledges interchanges (request 2026-11): each file that an argument names, in order, or standard
// input where there is no argument. What a caller lends is fixed here: the date and time `260106:0800`,
// the control reference `A1` and the message identification `CONTRL:2:2:UN`. It prints a line for each:
// the acknowledgement, or `refused NUMBER PLACE`. The line of an input that cannot be read is
// `unreadable`, and standard error says why. It ends with status 0 whatever it says.
#![tactic(auto)]

ghost use Rattle.run_acknowledge.specs.Told.{Fitting};

use inputs::{ROOM, Source};
use printing::{print_line, print_refused};
use refusals::Refusal;
use std::io;
use std::io::Print;

// The acknowledgement with the lent values of this program.
fn acknowledge_into(input: &[u8], output: &mut [u8]) -> Result<usize, Refusal>
    ensures { Fitting result output.new }
{
    acknowledge::acknowledge(
        input,
        b"2601060800",
        &[0, 0, 6, 2, 6, 4],
        b"A1",
        &[0, 0, 2],
        b"CONTRL22UN",
        &[0, 0, 6, 2, 6, 1, 2, 7, 1, 2, 8, 2],
        output,
    )
}

// No text is longer than 32,000 bytes, so that this buffer is never too short.
fn acknowledge_bytes(rt: &impl Print, input: &[u8]) -> io::Result<()> {
    let mut output = [0u8; refusals::MOST_BYTES];
    match acknowledge_into(input, &mut output) {
        Ok(n) => print_line(rt, &output[..n]),
        Err(refusal) => print_refused(rt, b"refused", refusal),
    }
}

fn acknowledge_input(rt: &HostRuntime, source: Source) {
    let mut buf = [0u8; ROOM];
    let Some(n) = inputs::read(rt, source, &mut buf) else {
        printing::report(&rt.stderr(), print_line(rt, b"unreadable"));
        return;
    };
    printing::report(&rt.stderr(), acknowledge_bytes(rt, &buf[..n]));
}

fn main(rt: HostRuntime) {
    let count = inputs::argument_count(&rt);
    if count < 2 {
        acknowledge_input(&rt, Source::StandardInput);
    }
    for i in 1..count {
        acknowledge_input(&rt, Source::Argument(i));
    }
}
