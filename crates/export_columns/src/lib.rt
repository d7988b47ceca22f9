// Export (request 2026-12): the contents of an accepted interchange in columns, in a lent buffer. Nothing is listed
// on the way: one walk puts the lines into a sink from the first byte to the last, with separators held back until
// something follows them, once to measure them and once to store them. It promises, for any bytes, the answer that `columns` gives, and every byte of the
// buffer at exit: what is beyond the text, and all of it where something is refused, keeps its values.
#![tactic(auto)]

ghost use Rattle.std.specs.Prelude.{◌≡◌, ◌+◌, ◌≤◌, ◌<◌, length};
ghost use Rattle.std.proofs.Math.Option.{none};
ghost use Rattle.refusals.specs.Limits.{most_bytes};
ghost use Rattle.values.specs.Tokens.{tokens_at};
ghost use Rattle.stages.specs.Stages.{refusal_of};
ghost use Rattle.operations.specs.Judge.{figures_of};
ghost use Rattle.columns.specs.Promises.{Exports};
ghost use Rattle.column_lines.specs.Numbers.{numbers_at};
ghost use Rattle.export_columns.specs.Printing.{first, numbers_due, begun_line, line_end, next_line, marks_text, after_marks, past_held, held_text, longer, after_byte, byte_text, after_separator, separator_text, lines_rest, lines_of, Room, Roomy};

use answers::Figures;
use characters::Characters;
use column_laws::Position;
use column_lines::next_position;
use emission_laws::Held;
use held_separators::{after_separator, nothing_held};
use plain_runs::{RunSink, past_plain};
use refusals::{Fault, Refusal};
use refusing::failed;
use scanner::{Lexed, lex};
use storing::{Measured, Stored};

// The line of the value that is open: how many bytes are printed, the value's position, whether its numbers are
// among them, and what is held back after it. The numbers wait for what follows them: after the last terminator
// nothing does. (`begun` is a flag, since no value stands beside it that only one of its states has.)
#[derive(Clone, Copy)]
pub struct Line {
    pub end: usize,
    pub position: Position,
    pub begun: bool,
    pub held: Held,
}

// Where lines go: the numbers in front of a value are measured without their digits.
trait LineSink: RunSink {
    // Puts the four numbers of a position, and returns the place after them.
    fn put_numbers(buffer: &mut [u8], at: usize, p: Position) -> usize
        requires { at + length (numbers_at p) ≤ Self.room buffer.old }
        ensures { (buffer.new ≡ Self.holds buffer.old at (numbers_at p)) × (result ≡ at + length (numbers_at p)) };
}

impl LineSink for Stored {
    #[inline(always)]
    fn put_numbers(buffer: &mut [u8], at: usize, p: Position) -> usize {
        column_lines::put_numbers(buffer, at, p)
    }
}

impl LineSink for Measured {
    fn put_numbers(_buffer: &mut [u8], at: usize, p: Position) -> usize {
        at + column_lines::numbers_length(p)
    }
}

// ---- the lines

// The first value is open, and nothing but the heading is printed.
fn first_line() -> Line
    ensures { result ≡ first }
{
    Line {
        end: column_lines::HEADING,
        position: column_lines::origin(),
        begun: false,
        held: nothing_held(),
    }
}

// Puts the numbers in front of the open value, unless they are printed.
#[inline(always)]
fn put_begin<S: LineSink>(buffer: &mut [u8], l: Line) -> Line
    requires { (l.end + length (numbers_due l) ≤ S.room buffer.old) × Room l 0 }
    ensures { (buffer.new ≡ S.holds buffer.old l.end (numbers_due l)) × (result ≡ begun_line l) }
{
    if l.begun {
        return l;
    }
    let end = S::put_numbers(buffer, l.end, l.position);
    Line {
        end,
        begun: true,
        ..l
    }
}

// Puts what ends the line; the next one is that of a value of a kind.
#[inline(always)]
fn put_end<S: LineSink>(buffer: &mut [u8], l: Line, kind: u32) -> Line
    requires { (l.end + length (line_end l) ≤ S.room buffer.old) × Room l 1 }
    ensures { (buffer.new ≡ S.holds buffer.old l.end (line_end l)) × (result ≡ next_line kind l) }
{
    let m = put_begin::<S>(buffer, l);
    S::set(buffer, m.end, b'\n');
    Line {
        end: m.end + 1,
        position: next_position(m.position, kind),
        begun: false,
        ..m
    }
}

// Puts what so many separators of one kind end, which are let out: each ends a line and begins the next.
#[inline(always)]
fn put_marks<S: LineSink>(buffer: &mut [u8], l: Line, kind: u32, count: usize) -> Line
    requires { (l.end + length (marks_text kind count l) ≤ S.room buffer.old) × Room l count }
    ensures { (buffer.new ≡ S.holds buffer.old l.end (marks_text kind count l)) × (result ≡ after_marks kind count l) }
{
    let mut m = l;
    for _ in 0..count {
        m = put_end::<S>(buffer, m, kind);
    }
    m
}

// Puts the lines that end where what is held back is let out.
fn put_held<S: LineSink>(buffer: &mut [u8], l: Line) -> Line
    requires { (l.end + length (held_text l) ≤ S.room buffer.old) × Roomy l 0 }
    ensures { (buffer.new ≡ S.holds buffer.old l.end (held_text l)) × (result ≡ past_held l) }
{
    let h = l.held;
    if h.elements + h.repeats + h.components == 0 {
        return l;
    }
    let elements = put_marks::<S>(buffer, l, 1, h.elements);
    let repeats = put_marks::<S>(buffer, elements, 3, h.repeats);
    put_marks::<S>(buffer, repeats, 2, h.components)
}

// Puts a byte of a value, after what it lets out.
fn put_byte<S: LineSink>(buffer: &mut [u8], l: Line, b: u8) -> Line
    requires { (l.end + length (byte_text b l) ≤ S.room buffer.old) × Roomy l 1 }
    ensures { (buffer.new ≡ S.holds buffer.old l.end (byte_text b l)) × (result ≡ after_byte l) }
{
    let past = put_held::<S>(buffer, l);
    let m = put_begin::<S>(buffer, past);
    S::set(buffer, m.end, b);
    Line {
        end: m.end + 1,
        held: nothing_held(),
        ..m
    }
}

// With so many bytes more of the open value, of which some are there.
fn with_more(l: Line, count: usize) -> Line
    requires { l.end + count < 18446744073709551616 }
    ensures { result ≡ longer count l }
{
    Line {
        end: l.end + count,
        ..l
    }
}

// A terminator puts what ends the line, and the next one begins a segment; another separator is held back.
fn put_separator<S: LineSink>(buffer: &mut [u8], l: Line, rank: u8) -> Line
    requires { (l.end + length (separator_text rank l) ≤ S.room buffer.old) × Roomy l 1 }
    ensures { (buffer.new ≡ S.holds buffer.old l.end (separator_text rank l)) × (result ≡ after_separator rank l) }
{
    let held = after_separator(l.held, rank);
    if rank == 0 {
        return Line {
            held,
            ..put_end::<S>(buffer, l, 0)
        };
    }
    Line { held, ..l }
}

// Puts the lines of the body that begins at `start`, after the heading, and returns the place after them. The
// plain bytes that follow one of a value are taken at once. (Read's walk, `read_stores::put_values`, has the same
// arms and stands by itself: one walk over a trait would need a state, what each arm asks and promises, laws that
// join them, and an impl for each of the two, which is more to read than the two loops. The scanner tells the next
// place, so that no `for` can count it.)
fn put_lines<S: LineSink>(buffer: &mut [u8], s: &[u8], c: Characters, start: usize) -> usize
    requires { (length s.now ≤ most_bytes) × (39 + length (lines_rest first (tokens_at c s.now start)) ≤ S.room buffer.old) }
    ensures { (buffer.new ≡ S.holds buffer.old 39 (lines_rest first (tokens_at c s.now start))) × (result ≡ length (lines_of (tokens_at c s.now start))) }
{
    let mut l = first_line();
    let mut at = start;
    loop {
        match lex(s, c, at) {
            Lexed::Byte { byte, next, .. } => {
                let begun = put_byte::<S>(buffer, l, byte);
                at = past_plain(s, c, next);
                S::put_plain(buffer, begun.end, s, next, at);
                l = with_more(begun, at - next);
            }
            Lexed::Separator { rank, next } => {
                l = put_separator::<S>(buffer, l, rank);
                at = next;
            }
            Lexed::Stray { next } => {
                at = next;
            }
            Lexed::End => {
                return l.end;
            }
        }
    }
}

// How long the text of the body is that begins at `start`, heading and all, which needs no buffer.
fn text_length(s: &[u8], c: Characters, start: usize) -> usize
    requires { length s.now ≤ most_bytes }
    ensures { result ≡ length (lines_of (tokens_at c s.now start)) }
{
    put_lines::<Measured>(&mut [], s, c, start)
}

// ---- the operation

// Stores the text of an interchange that Judge accepted, of which it said this.
fn store_text(buffer: &mut [u8], s: &[u8], i: Figures) -> Result<usize, Refusal>
    requires { (refusal_of s.now ≡ none) × (i ≡ figures_of s.now) }
    ensures { Exports buffer.old s.now result buffer.new }
{
    let c = i.characters;
    let start = stage_opening::body_start(s);
    let n = text_length(s, c, start);
    if buffer.len() < n {
        return failed(Fault::BufferShort, n);
    }
    column_lines::put_heading(buffer);
    put_lines::<Stored>(buffer, s, c, start);
    Ok(n)
}

// Exports an interchange: any bytes.
pub fn export_columns(buffer: &mut [u8], s: &[u8]) -> Result<usize, Refusal>
    ensures { Exports buffer.old s.now result buffer.new }
{
    let figures = judge::judge(s)?;
    store_text(buffer, s, figures)
}
