// A line in columns (request 2026-12), number by number: how long its numbers are, their bytes in a lent buffer,
// and whether they stand at a place of a text. A number is never converted: its digits are compared, at most twenty.
#![tactic(auto)]

ghost use Rattle.std.specs.Prelude.{◌≡◌, ◌+◌, ◌%◌, ◌≤◌, ◌<◌, length, drop};
ghost use Rattle.std.proofs.lemmas.List.Edits.{sets};
ghost use Rattle.lists.specs.Lists.{begins};
ghost use Rattle.columns.specs.Lines.{in_decimal, heading};
ghost use Rattle.column_laws.specs.Positions.{at, next_at};
ghost use Rattle.column_lines.specs.Numbers.{cell, numbers_at, Ends};

use column_laws::Position;

const TAB: u8 = 9;

// ---- positions

pub fn origin() -> Position
    ensures { result ≡ at 0 0 0 0 }
{
    Position {
        segment: 0,
        element: 0,
        repeat: 0,
        component: 0,
    }
}

// The position of a value of a kind that follows the value at a position. (The kinds are the numbers of a table's records, as
// `value_lists` says.)
pub fn next_position(p: Position, kind: u32) -> Position
    requires { (p.segment < 18446744073709551615) × (p.element < 18446744073709551615) × (p.repeat < 18446744073709551615) × (p.component < 18446744073709551615) }
    ensures { result ≡ next_at p kind }
{
    match kind {
        0 => Position {
            segment: p.segment + 1,
            ..origin()
        },
        1 => Position {
            element: p.element + 1,
            repeat: 0,
            component: 0,
            ..p
        },
        3 => Position {
            repeat: p.repeat + 1,
            component: 0,
            ..p
        },
        _ => Position {
            component: p.component + 1,
            ..p
        },
    }
}

// ---- a number

// How many digits a number has: at most twenty. (How often it is divided the number tells, and no range.)
fn digit_count(n: usize) -> usize
    ensures { (result ≡ length (in_decimal n)) × (result ≤ 20) }
{
    let mut left = n;
    let mut count = 1;
    while 9 < left {
        left /= 10;
        count += 1;
    }
    count
}

// The last digit of a number. (`as` takes it for a byte: `try_from` would name an error that cannot come.)
fn last_digit(n: usize) -> u8
    ensures { result ≡ 48 + n % 10 }
{
    48 + (n % 10) as u8
}

// Stores the digits of a number and a tab, and returns the place after it.
fn put_column(buffer: &mut [u8], at: usize, n: usize) -> usize
    requires { at + length (cell n) ≤ length buffer.old }
    ensures { (buffer.new ≡ sets buffer.old at (cell n)) × (result ≡ at + length (cell n)) }
{
    let end = at + digit_count(n);
    let mut left = n;
    for to in (at..end).rev() {
        buffer[to] = last_digit(left);
        left /= 10;
    }
    buffer[end] = TAB;
    end + 1
}

// The digits of a number stand at a place, and would end before `end`.
fn stands(s: &[u8], at: usize, end: usize, n: usize) -> bool
    requires { (end ≡ at + length (in_decimal n)) × (end ≤ length s.now) }
    ensures { result ≡ begins (in_decimal n) (drop at s.now) }
{
    let mut left = n;
    for from in (at..end).rev() {
        if s[from] != last_digit(left) {
            return false;
        }
        left /= 10;
    }
    true
}

// The place after a number and a tab, where they stand at a place. (`then_some` was tried; import says what it cost.)
fn past_column(s: &[u8], at: usize, n: usize) -> Option<usize>
    requires { at ≤ length s.now }
    ensures { Ends (cell n) s.now at result }
{
    let count = digit_count(n);
    if s.len() - at <= count {
        return None;
    }
    let end = at + count;
    if s[end] == TAB && stands(s, at, end, n) {
        Some(end + 1)
    } else {
        None
    }
}

// ---- the four numbers of a line

// How many bytes they take with their tabs.
pub fn numbers_length(p: Position) -> usize
    ensures { (result ≡ length (numbers_at p)) × (result ≤ 84) }
{
    digit_count(p.segment)
        + digit_count(p.element)
        + digit_count(p.repeat)
        + digit_count(p.component)
        + 4
}

// Stores them from a place on.
pub fn put_numbers(buffer: &mut [u8], at: usize, p: Position) -> usize
    requires { at + length (numbers_at p) ≤ length buffer.old }
    ensures { (buffer.new ≡ sets buffer.old at (numbers_at p)) × (result ≡ at + length (numbers_at p)) }
{
    let element = put_column(buffer, at, p.segment);
    let repeat = put_column(buffer, element, p.element);
    let component = put_column(buffer, repeat, p.repeat);
    put_column(buffer, component, p.component)
}

// The place after them, where they stand at a place of the text.
pub fn numbers_end(s: &[u8], at: usize, p: Position) -> Option<usize>
    requires { at ≤ length s.now }
    ensures { Ends (numbers_at p) s.now at result }
{
    let element = past_column(s, at, p.segment)?;
    let repeat = past_column(s, element, p.element)?;
    let component = past_column(s, repeat, p.repeat)?;
    past_column(s, component, p.component)
}

// ---- the heading

const HEADING_LINE: &[u8] = b"segment\telement\trepeat\tcomponent\tvalue\n";

// How many bytes the heading line has.
pub const HEADING: usize = 39;

// Stores the heading line at the front.
pub fn put_heading(buffer: &mut [u8])
    requires { length heading ≤ length buffer.old }
    ensures { buffer.new ≡ sets buffer.old 0 heading }
{
    storing::put_short(buffer, 0, HEADING_LINE);
}

// The text begins with a line. (The library's `starts_with` was tried: the heading is then no part of the instructions but
// stands among the constant data, which is held to 64 bytes.)
fn starts_with(s: &[u8], line: &[u8]) -> bool
    ensures { result ≡ begins line.now s.now }
{
    if s.len() < line.len() {
        return false;
    }
    for (i, b) in line.iter().enumerate() {
        if s[i] != *b {
            return false;
        }
    }
    true
}

// The text begins with the heading line.
pub fn begins_heading(s: &[u8]) -> bool
    ensures { result ≡ begins heading s.now }
{
    starts_with(s, HEADING_LINE)
}
