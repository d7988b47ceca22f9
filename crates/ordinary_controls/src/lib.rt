// Control elements of digits and upper case letters, as they stand (paper 01, "Control elements"): most
// references are spelled so. It says only that stage (10 11 12) passes a segment, and then where the
// segment's reference begins. Where an element is spelled otherwise, or the segment may be refused, it says
// `None`, which promises nothing, and the answer is left to `stage_control`.
#![tactic(auto)]

ghost use Rattle.std.specs.Prelude.{◌+◌, ◌≤◌, ◌<◌, ◌≡◌, true, not, ◌&&◌, ◌||◌, eqb, length};
ghost use Rattle.elements.specs.Elements.{ElementAt};
ghost use Rattle.ordinary_runs.specs.Runs.{quiet, Run};
ghost use Rattle.ordinary_controls.specs.Standing.{SameRun, Counts, Refers, Tagged, Repeats, Heads, Trails, Controls};

use characters::Characters;
use control_elements::Positions;
use elements::element_at;
use ordinary_runs::{is_ordinary, past_run};

// The place up to which the bytes from the first place on are ordinary and the same as from the second
// on.
fn same_run(s: &[u8], first: usize, second: usize) -> usize
    requires { first ≤ length s.now }
    ensures { SameRun s.now first second result }
{
    for at in first..s.len() {
        let other = second + (at - first);
        if s.len() <= other || !is_ordinary(s[at]) || s[at] != s[other] {
            return at;
        }
    }
    s.len()
}

// The terminator or the element separator.
fn ends_element(c: Characters, b: u8) -> bool
    ensures { result ≡ (eqb b c.terminator || eqb b c.element) }
{
    (b == c.terminator) | (b == c.element)
}

// The element separator, where it is not the terminator.
fn is_separator(c: Characters, b: u8) -> bool
    ensures { result ≡ (eqb b c.element && not (eqb b c.terminator)) }
{
    (b == c.element) & (b != c.terminator)
}

// The digits from a place on, up to six, by the place after them and the number that they spell.
#[derive(Clone, Copy)]
struct Count {
    end: usize,
    number: u32,
}

fn count_at(s: &[u8], from: usize) -> Count
    requires { from ≤ length s.now }
    ensures { Counts s.now from result }
{
    let mut number: u32 = 0;
    for at in from..s.len() {
        if !s[at].is_ascii_digit() || 6 <= at - from {
            return Count { end: at, number };
        }
        number = number * 10 + u32::from(s[at] - b'0');
    }
    Count {
        end: s.len(),
        number,
    }
}

// The element between two places is a reference, if the bytes between them are ordinary.
fn refers(s: &[u8], c: Characters, from: usize, end: usize) -> bool
    requires { from ≤ end }
    ensures { result ≡ true → Refers c s.now from end }
{
    end < s.len() && from < end && end - from <= 14 && ends_element(c, s[end])
}

// The element at a place is a reference, and the value at another is the same.
fn repeats(s: &[u8], c: Characters, from: usize, header: usize) -> bool
    requires { (quiet c ≡ true) × (from ≤ length s.now) }
    ensures { result ≡ true → Repeats c s.now from header }
{
    let end = same_run(s, from, header);
    if !refers(s, c, from, end) {
        return false;
    }
    let other = header + (end - from);
    other < s.len() && ends_element(c, s[other])
}

// Where the element of that number begins, in a segment with a tag of three ordinary bytes.
fn element_from(s: &[u8], c: Characters, at: usize, position: usize) -> usize
    requires { (quiet c ≡ true) × Tagged s.now at }
    ensures { ElementAt c s.now at position result }
{
    if position == 1 {
        let end = at + 3;
        if is_separator(c, s[end]) {
            return end + 1;
        }
    }
    element_at(s, c, at, position)
}

// A header, whose reference is the element of that number.
fn header_control(s: &[u8], c: Characters, at: usize, position: usize) -> Option<usize>
    requires { (quiet c ≡ true) × Tagged s.now at }
    ensures { Heads c s.now at position result }
{
    let reference = element_from(s, c, at, position);
    let end = past_run(s, true, reference);
    refers(s, c, reference, end).then_some(reference)
}

// A trailer: its first element has to be this count, and its second the reference at `header`.
fn trailer_control(s: &[u8], c: Characters, at: usize, header: usize, count: u32) -> Option<usize>
    requires { (quiet c ≡ true) × Tagged s.now at }
    ensures { Trails c s.now at header count result }
{
    let tagged = at + 3;
    let counted = tagged + 1;
    let found = count_at(s, counted);
    let end = found.end;
    if s.len() <= end || end == counted || found.number != count {
        return None;
    }
    if !(is_separator(c, s[tagged]) & is_separator(c, s[end])) {
        return None;
    }
    let reference = end + 1;
    repeats(s, c, reference, header).then_some(reference)
}

// One segment, with a tag of three ordinary bytes: stage (10 11 12) passes it, and its reference begins at
// this place; or it may not pass.
pub fn control_of(
    s: &[u8],
    c: Characters,
    at: usize,
    p: Positions,
    header: usize,
    count: u32,
) -> Option<usize>
    requires { (quiet c ≡ true) × Tagged s.now at }
    ensures { Controls c s.now at p header count result }
{
    match (p.count, p.reference) {
        (0, reference) => header_control(s, c, at, reference),
        (1, 2) => trailer_control(s, c, at, header, count),
        _ => None,
    }
}
