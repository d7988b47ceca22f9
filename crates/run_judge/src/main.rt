// Judges interchanges: each file that an argument names, in order, or standard input where there is
// no argument. It prints a line for each, `accepted SEGMENTS MESSAGES GROUPS LENGTH` with the length
// of the normal form, or `refused NUMBER PLACE`. The line of an input that cannot be read is
// `unreadable`, and standard error says why. It ends with status 0 whatever it says.
#![tactic(auto)]

use answers::Figures;
use inputs::{ROOM, Source};
use printing::{print_line, print_refused, print_value};
use refusals::Refusal;
use std::io;
use std::io::Print;

fn print_accepted(rt: &impl Print, figures: Figures) -> io::Result<()> {
    rt.write_all(b"accepted")?;
    print_value(rt, u64::from(figures.segments.0))?;
    print_value(rt, u64::from(figures.messages.0))?;
    print_value(rt, u64::from(figures.groups.0))?;
    print_value(rt, figures.length as u64)?;
    rt.write_all(b"\n")
}

fn print_judged(rt: &impl Print, judged: Result<Figures, Refusal>) -> io::Result<()> {
    match judged {
        Ok(interchange) => print_accepted(rt, interchange),
        Err(refusal) => print_refused(rt, b"refused", refusal),
    }
}

fn judge_input(rt: &HostRuntime, source: Source) {
    let mut buf = [0u8; ROOM];
    let Some(n) = inputs::read(rt, source, &mut buf) else {
        printing::report(&rt.stderr(), print_line(rt, b"unreadable"));
        return;
    };
    printing::report(&rt.stderr(), print_judged(rt, judge::judge(&buf[..n])));
}

fn main(rt: HostRuntime) {
    let count = inputs::argument_count(&rt);
    if count < 2 {
        judge_input(&rt, Source::StandardInput);
    }
    for i in 1..count {
        judge_input(&rt, Source::Argument(i));
    }
}
