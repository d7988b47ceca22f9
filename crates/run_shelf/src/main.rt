// Plays a history of a shelf: `run_shelf SIZE [put FILE | get SLOT | remove SLOT | slots - | sums - | carry - |
// back -] ..` starts an empty shelf of SIZE bytes and does what the arguments say, in order. It prints a line for
// each: `started`; `new SLOT` or `copy SLOT`; the kept text; `removed LENGTH`; `slots OCCUPIED LOWEST-FREE`; `sums
// HELD DUPLICATES`; `carried` or `carried back`; or `refused NUMBER PLACE`. The line of a file that cannot be read
// is `unreadable`, and standard error says why. A program in Rattle ends with status 0 whatever it says.
#![tactic(auto)]

use inputs::{ROOM, Source};
use printing::{print_line, print_refused, print_value};
use refusals::Refusal;
use shelves::{Shelved, Slots, TwoSums};
use std::io;
use std::io::Print;

// A word, and a number after it.
fn print_number(rt: &impl Print, word: &[u8], value: usize) -> io::Result<()> {
    rt.write_all(word)?;
    print_value(rt, value as u64)?;
    print_line(rt, b"")
}

fn print_shelved(rt: &impl Print, shelved: Result<Shelved, Refusal>) -> io::Result<()> {
    match shelved {
        Ok(Shelved::New(slot)) => print_number(rt, b"new", slot),
        Ok(Shelved::Copy(slot)) => print_number(rt, b"copy", slot),
        Err(refusal) => print_refused(rt, b"refused", refusal),
    }
}

fn print_slots(rt: &impl Print, slots: Result<Slots, Refusal>) -> io::Result<()> {
    match slots {
        Ok(slots) => {
            rt.write_all(b"slots")?;
            print_value(rt, slots.occupied as u64)?;
            print_value(rt, slots.lowest_free as u64)?;
            print_line(rt, b"")
        }
        Err(refusal) => print_refused(rt, b"refused", refusal),
    }
}

fn print_sums(rt: &impl Print, sums: Result<TwoSums, Refusal>) -> io::Result<()> {
    match sums {
        Ok(sums) => {
            rt.write_all(b"sums")?;
            print_value(rt, u64::from(sums.held))?;
            print_value(rt, u64::from(sums.duplicates))?;
            print_line(rt, b"")
        }
        Err(refusal) => print_refused(rt, b"refused", refusal),
    }
}

fn print_removed(rt: &impl Print, stored: Result<usize, Refusal>) -> io::Result<()> {
    match stored {
        Ok(n) => print_number(rt, b"removed", n),
        Err(refusal) => print_refused(rt, b"refused", refusal),
    }
}

fn print_got(rt: &impl Print, s: &[u8], slot: usize) -> io::Result<()> {
    match shelf::measure(s, slot) {
        Ok(_) => print_line(rt, shelf::get(s, slot)),
        Err(refusal) => print_refused(rt, b"refused", refusal),
    }
}

fn put_file(rt: &HostRuntime, s: &mut [u8], argument: usize) -> io::Result<()> {
    let mut buf = [0u8; ROOM];
    let Some(n) = inputs::read(rt, Source::Argument(argument), &mut buf) else {
        return print_line(rt, b"unreadable");
    };
    print_shelved(rt, shelf::put(s, &buf[..n]))
}

// The number that an argument spells.
fn number_at(rt: &HostRuntime, argument: usize) -> Option<usize> {
    let mut word = [0u8; 16];
    let n = inputs::argument(rt, argument, &mut word)?;
    inputs::number_of(&word[..n])
}

// The slot that it spells; where it spells none, one that no slot has, which is then printed as the place.
fn slot_at(rt: &HostRuntime, argument: usize) -> usize {
    number_at(rt, argument).unwrap_or(1000000000)
}

fn print_done(rt: &impl Print, outcome: Result<(), Refusal>, done: &[u8]) -> io::Result<()> {
    match outcome {
        Ok(()) => print_line(rt, done),
        Err(refusal) => print_refused(rt, b"refused", refusal),
    }
}

// What a word asks for, by its first two letters, of the file or the slot that the next argument names.
fn do_operation(rt: &HostRuntime, s: &mut [u8], word: usize, argument: usize) -> io::Result<()> {
    let mut letters = [0u8; 16];
    let _ = inputs::argument(rt, word, &mut letters);
    match letters[0] {
        b'p' => put_file(rt, s, argument),
        b'g' => print_got(rt, s, slot_at(rt, argument)),
        b'r' => print_removed(rt, shelf::remove(s, slot_at(rt, argument))),
        b'c' => print_done(rt, shelf_carrying::carry(s), b"carried"),
        b'b' => print_done(rt, shelf_carrying::carry_back(s), b"carried back"),
        _ if letters[1] == b'u' => print_sums(rt, shelf::sums(s)),
        _ => print_slots(rt, shelf::slots(s)),
    }
}

fn do_arguments(rt: &HostRuntime, s: &mut [u8], count: usize) {
    // Two arguments an operation, behind the program's name and the size. (A `step_by` would begin an operation at a
    // last word that has nothing behind it.)
    for pair in 1..count / 2 {
        printing::report(&rt.stderr(), do_operation(rt, s, 2 * pair, 2 * pair + 1));
    }
}

fn play(rt: &HostRuntime, s: &mut [u8]) {
    printing::report(&rt.stderr(), print_done(rt, shelf::start(s), b"started"));
    do_arguments(rt, s, inputs::argument_count(rt));
}

fn say_usage(rt: &HostRuntime) {
    let _ = rt.stderr().write_all(
        b"usage: run_shelf SIZE [put FILE | get SLOT | remove SLOT | slots - | sums - | carry - | back -] ..\n",
    );
}

fn main(rt: HostRuntime) {
    let mut buf = [0u8; 65537];
    match number_at(&rt, 1) {
        Some(size) if size <= 65537 => play(&rt, &mut buf[..size]),
        _ => say_usage(&rt),
    }
}
