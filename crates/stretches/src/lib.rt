// Stretches of a body that are spelled byte for byte with other service characters (paper 01, "Normal
// form"): they hold no empty end, no byte of a value that is to be released, and release characters only
// where the service characters are the same. It promises that what is emitted from a place on is the
// stretch, each separator respelled, and then what is emitted after it. Where a stretch halts is told by
// tests that ask thirty-two bytes at once.
#![tactic(auto)]

ghost use Rattle.std.specs.Prelude.{true, false, ◌≡◌, ◌+◌, ◌-◌, ◌≤◌, ◌<◌, length};
ghost use Rattle.std.proofs.lemmas.List.Edits.{sets};
ghost use Rattle.release_marks.specs.Marks.{marked_at};
ghost use Rattle.stretches.specs.Releases.{alike, Passes, PassesAlike, PassesBlock, stops, stops_at, Stopped};
ghost use Rattle.stretches.specs.Stretches.{respelled, halts, Goes, respelling, Stretch, EndsInValue};

use characters::Characters;
use first_found::{after_last, before_first};
use line_breaks::is_break;
use release_marks::{closed, is_marked, is_marked_at, misread};
use std::ops::ControlFlow;
use storing::is_service;
use verbatim::{ends_repeat, is_idle};

// A byte as `n` spells it: a separator is the one of its rank.
fn respelled(c: Characters, n: Characters, b: u8) -> u8
    ensures { result ≡ respelled c n b }
{
    if b == c.terminator {
        return n.terminator;
    }
    if b == c.element {
        return n.element;
    }
    if (c.repetition != 32) & (b == c.repetition) {
        return n.repetition;
    }
    if b == c.component {
        return n.component;
    }
    b
}

// A stretch halts at the byte `a`, before `b`. Nothing here branches on what a byte is, so that many bytes are asked at
// once; what ends a repeat is found once for all.
fn halts(c: Characters, n: Characters, a: u8, b: u8) -> bool
    ensures { result ≡ halts c n a b }
{
    let release = (c.release != 32) & (a == c.release);
    let released = is_service(n, a) & !is_service(c, a);
    let line = (a == c.terminator) & is_break(b);
    release | (released | (line | is_idle(c, ends_repeat(c), a, b)))
}

// Over so many of thirty-two bytes a stretch goes on: over all of them, or up to the first at which it halts.
fn before_halt(s: &[u8], c: Characters, n: Characters, from: usize) -> usize
    requires { from + 32 + 1 ≤ length s.now }
    ensures { (result ≤ 32) × Goes c n s.now from (from + result) }
{
    before_first::<32, _>(|k| {
        let at = from + usize::from(k);
        halts(c, n, s[at], s[at + 1])
    })
}

// A place up to which a stretch goes on, thirty-two bytes at once: where it halts, or the last few bytes. (A `for`
// with `step_by` would not hand out the place where it ends.)
fn past_blocks(s: &[u8], c: Characters, n: Characters, from: usize) -> usize
    ensures { (from ≤ result) × Goes c n s.now from result }
{
    let mut at = from;
    while at < s.len() && 32 < s.len() - at {
        let count = before_halt(s, c, n, at);
        if count < 32 {
            return at + count;
        }
        at += 32;
    }
    at
}

// The same over the last few bytes, byte by byte.
fn past_last(s: &[u8], c: Characters, n: Characters, from: usize) -> usize
    ensures { (from ≤ result) × Goes c n s.now from result }
{
    if s.len() <= from || 32 < s.len() - from {
        return from;
    }
    let last = s.len() - 1;
    (from..last)
        .find(|&at| halts(c, n, s[at], s[at + 1]))
        .unwrap_or(last)
}

// ---- release characters

// The five service characters are the same; there is a release character, and it is no separator. (`==` of all would
// ask the mark too, which may differ.)
fn are_alike(c: Characters, n: Characters) -> bool
    ensures { result ≡ alike c n }
{
    let last = (c.terminator == n.terminator) & (c.release == n.release);
    let inner = (c.element == n.element) & ((c.repetition == n.repetition) & last);
    let either = (c.release == c.repetition) | (c.release == c.component);
    let separates = (c.release == c.terminator) | ((c.release == c.element) | either);
    ((c.component == n.component) & inner) & ((c.release != 32) & !separates)
}

// A stretch stops at the byte `a`, before `b`; `this` and `next` say whether they are taken for released. (What
// `segment_ends` has under this name and the names below stops at something else and promises something else.)
fn stops(c: Characters, this: bool, next: bool, a: u8, b: u8) -> bool
    ensures { result ≡ stops c this next a b }
{
    let line = (a == c.terminator) & is_break(b);
    misread(c, this, next, a) | (!this & (line | is_idle(c, ends_repeat(c), a, b)))
}

// The same of the byte four places on, where the four before it say which are taken for released.
fn stops_at(s: &[u8], c: Characters, at: usize) -> bool
    requires { at + 6 ≤ length s.now }
    ensures { result ≡ stops_at c s.now at }
{
    let this = is_marked(c, s[at + 3], s[at + 2], s[at + 1], s[at]);
    let next = is_marked(c, s[at + 4], s[at + 3], s[at + 2], s[at + 1]);
    stops(c, this, next, s[at + 4], s[at + 5])
}

// The first of thirty-two bytes at which a stretch stops, or 32. They begin four places on, and the first is not
// released. Which of the others are is only guessed: where a guess is wrong the stretch stops.
fn first_stop(s: &[u8], c: Characters, from: usize) -> usize
    requires { (from + 37 ≤ length s.now) × (marked_at c s.now from ≡ false) }
    ensures { Stopped c s.now from result }
{
    before_first::<32, _>(|k| stops_at(s, c, from + usize::from(k)))
}

// Over so many of thirty-two bytes a stretch passes. The last two calls are the same: where it passes all of them
// the count is a constant, and the processor need not wait for what the loop finds.
fn before_stop(s: &[u8], c: Characters, from: usize) -> usize
    requires { (4 ≤ from) × (from + 33 ≤ length s.now) }
    ensures { (result ≤ 32) × PassesAlike c s.now from (from + result) }
{
    let base = from - 4;
    if is_marked_at(s, c, base) {
        return 0;
    }
    let count = first_stop(s, c, base);
    if count == 32 {
        return closed(s, c, base, 32);
    }
    closed(s, c, base, count)
}

// The place after release characters, each with the service character that it takes, of which none may stand
// there. (The pairs as `chunks_exact(2)` would leave the place to be counted beside them.)
fn past_taken(s: &[u8], c: Characters, from: usize) -> usize
    ensures { (from ≤ result) × PassesAlike c s.now from result }
{
    let mut at = from;
    while at < s.len() && 1 < s.len() - at && s[at] == c.release && is_service(c, s[at + 1]) {
        at += 2;
    }
    at
}

// Over thirty-two bytes or up to where the stretch stops; more than four release characters that stand side by
// side are passed two by two. At a place behind `from` the stretch goes on, or it ends.
fn past_block(s: &[u8], c: Characters, from: usize) -> ControlFlow<usize, usize>
    requires { (4 ≤ from) × (from + 33 ≤ length s.now) }
    ensures { PassesBlock c s.now from result }
{
    let count = before_stop(s, c, from);
    if count == 32 {
        return ControlFlow::Continue(from + 32);
    }
    let to = from + count;
    if count == 31 {
        return ControlFlow::Continue(to);
    }
    let next = past_taken(s, c, to);
    if to < next {
        ControlFlow::Continue(next)
    } else {
        ControlFlow::Break(to)
    }
}

// A place up to which a stretch passes where the characters are alike: where it stops, the last few bytes,
// or the first block that begins at `until` or later. (How far a block goes no `for` would know.)
fn past_alike(s: &[u8], c: Characters, from: usize, until: usize) -> usize
    ensures { PassesAlike c s.now from result }
{
    let mut at = from;
    while at < s.len() && 32 < s.len() - at && 4 <= at && at < until {
        match past_block(s, c, at) {
            ControlFlow::Continue(to) => at = to,
            ControlFlow::Break(to) => return to,
        }
    }
    at
}

// The same where they may differ, and then up to any place.
fn past_most(s: &[u8], c: Characters, n: Characters, from: usize, until: usize) -> usize
    ensures { Passes c n s.now from result }
{
    if are_alike(c, n) {
        return past_alike(s, c, from, until);
    }
    past_blocks(s, c, n, from)
}

// The last place up to `to` before which a byte of a value stands, or `from`.
fn back_to_value(s: &[u8], c: Characters, from: usize, to: usize) -> usize
    requires { (from ≤ to) × (from < to → to ≤ length s.now) }
    ensures { (from ≤ result) × (result ≤ to) × EndsInValue c s.now from result }
{
    after_last(s, from, to, |b| !is_service(c, b))
}

// A place up to which a stretch goes that begins at a place where nothing is held back. Where the
// characters are alike it goes little further than `until`.
pub fn stretch_end(s: &[u8], c: Characters, n: Characters, from: usize, until: usize) -> usize
    ensures { Stretch c n s.now from result }
{
    let most = past_most(s, c, n, from, until);
    let to = past_last(s, c, n, most);
    back_to_value(s, c, from, to)
}

// Stores the bytes from a place up to another, respelled. (A `zip` of two slices would ask that `from` is not behind `end`,
// which no caller of this function owes.)
pub fn put_stretch(
    buffer: &mut [u8],
    into: usize,
    c: Characters,
    n: Characters,
    s: &[u8],
    from: usize,
    end: usize,
)
    requires { (into + (end - from) ≤ length buffer.old) × (end ≤ length s.now) }
    ensures { buffer.new ≡ sets buffer.old into (respelling c n s.now from (end - from)) }
{
    for at in from..end {
        buffer[into + (at - from)] = respelled(c, n, s[at]);
    }
}

// How long the text is so far, and the place of the input that is reached.
#[derive(Clone, Copy)]
pub struct Reached {
    pub total: usize,
    pub at: usize,
}
