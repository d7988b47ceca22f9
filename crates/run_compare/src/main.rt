// Compares interchanges: the files that its arguments name, two by two. It prints a line for each two,
// `same KEPT` where KEPT is 1 or 2, the one that Keep hands back; `different`; or
// `refused INPUT NUMBER PLACE` where INPUT is 1 or 2. The line of two of which one cannot be read is
// `unreadable INPUT`, and standard error says why. It also says how the program is used where its
// arguments are not pairs. It ends with status 0 whatever it says.
#![tactic(auto)]

use inputs::{ROOM, Source};
use printing::{print_compared, print_line};
use std::io;
use std::io::Print;

// Keep hands back the second only where it is shorter, so that the length tells which it is.
fn print_kept<'a>(rt: &impl Print, first: &'a [u8], second: &'a [u8]) -> io::Result<()> {
    let kept = compare::keep(first, second);
    if kept.len() < first.len() {
        return print_line(rt, b"same 2");
    }
    print_line(rt, b"same 1")
}

fn print_pair<'a>(rt: &impl Print, first: &'a [u8], second: &'a [u8]) -> io::Result<()> {
    let compared = compare::compare(first, second);
    match compared {
        Ok(true) => print_kept(rt, first, second),
        _ => print_compared(rt, compared),
    }
}

fn compare_arguments(rt: &HostRuntime, first: usize, second: usize) {
    let mut a = [0u8; ROOM];
    let mut b = [0u8; ROOM];
    let Some(n) = inputs::read(rt, Source::Argument(first), &mut a) else {
        printing::report(&rt.stderr(), print_line(rt, b"unreadable 1"));
        return;
    };
    let Some(m) = inputs::read(rt, Source::Argument(second), &mut b) else {
        printing::report(&rt.stderr(), print_line(rt, b"unreadable 2"));
        return;
    };
    printing::report(&rt.stderr(), print_pair(rt, &a[..n], &b[..m]));
}

// The first argument is the program's name.
fn main(rt: HostRuntime) {
    let count = inputs::argument_count(&rt);
    if count < 3 || count % 2 == 0 {
        let _ = rt
            .stderr()
            .write_all(b"usage: run_compare FIRST SECOND ..\n");
        return;
    }
    for first in (1..count).step_by(2) {
        compare_arguments(&rt, first, first + 1);
    }
}
