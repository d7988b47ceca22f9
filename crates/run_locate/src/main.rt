// Locates a value: `locate SEGMENT ELEMENT REPEAT COMPONENT [FILE ..]` looks in each file, or in standard input
// where none is named, for the value with these numbers, each from 0 in the contents (element 0 is the
// tag). It prints a line for each, `at OFFSET LENGTH VALUE` with the value as it is spelled there;
// `absent`; or `refused NUMBER PLACE`. The line of an input that cannot be read is `unreadable`, and
// standard error says why. It also says how the program is used where the four are not numbers of up
// to nine digits. It ends with status 0 whatever it says.
#![tactic(auto)]

use inputs::{ROOM, Source};
use printing::{print_line, print_refused, print_value};
use std::io;
use std::io::Print;

// The numbers of a segment, an element, a repeat and a component.
#[derive(Clone, Copy)]
struct Numbers {
    segment: usize,
    element: usize,
    repeat: usize,
    component: usize,
}

fn print_at(rt: &impl Print, offset: usize, value: &[u8]) -> io::Result<()> {
    rt.write_all(b"at")?;
    print_value(rt, offset as u64)?;
    print_value(rt, value.len() as u64)?;
    rt.write_all(b" ")?;
    print_line(rt, value)
}

fn print_located(rt: &impl Print, input: &[u8], v: Numbers) -> io::Result<()> {
    match locate::locate(input, v.segment, v.element, v.repeat, v.component) {
        Ok(Some(found)) => {
            print_at(
                rt,
                found.offset,
                locate::part(input, v.segment, v.element, v.repeat, v.component),
            )
        }
        Ok(None) => print_line(rt, b"absent"),
        Err(refusal) => print_refused(rt, b"refused", refusal),
    }
}

fn locate_input(rt: &HostRuntime, v: Numbers, source: Source) {
    let mut buf = [0u8; ROOM];
    let Some(n) = inputs::read(rt, source, &mut buf) else {
        printing::report(&rt.stderr(), print_line(rt, b"unreadable"));
        return;
    };
    printing::report(&rt.stderr(), print_located(rt, &buf[..n], v));
}

// An argument that is missing, or longer than this buffer, is no number either.
fn argument(rt: &HostRuntime, i: usize) -> Option<usize> {
    let mut text = [0u8; 32];
    let n = inputs::argument(rt, i, &mut text)?;
    inputs::number_of(&text[..n])
}

fn say_usage(rt: &HostRuntime) {
    let _ = rt.stderr().write_all(
        b"usage: run_locate SEGMENT ELEMENT REPEAT COMPONENT [FILE ..]\n",
    );
}

// The numbers that the first four arguments spell.
fn spelled_numbers(rt: &HostRuntime) -> Option<Numbers> {
    Some(Numbers {
        segment: argument(rt, 1)?,
        element: argument(rt, 2)?,
        repeat: argument(rt, 3)?,
        component: argument(rt, 4)?,
    })
}

fn main(rt: HostRuntime) {
    let Some(v) = spelled_numbers(&rt) else {
        say_usage(&rt);
        return;
    };
    let count = inputs::argument_count(&rt);
    if count < 6 {
        locate_input(&rt, v, Source::StandardInput);
    }
    for i in 5..count {
        locate_input(&rt, v, Source::Argument(i));
    }
}
