// Where a segment ends: the first terminator or release character is looked for among sixty-four bytes at
// once, and from a release character on thirty-two bytes are. It promises what `scanner::scan` promises, which
// it calls for the last few bytes of an input and where a release character is stray.
#![tactic(auto)]

ghost use Rattle.std.specs.Prelude.{true, false, ◌≡◌, ◌+◌, ◌≤◌, ◌<◌, length};
ghost use Rattle.characters.specs.declared.Role.TheVariants.{Release};
ghost use Rattle.characters.specs.Characters.{role, is_service};
ghost use Rattle.release_marks.specs.Marks.{marked_at};
ghost use Rattle.scanner.specs.Scan.{releasing, Others, Scans};
ghost use Rattle.segment_ends.specs.Moving.{Moves};
ghost use Rattle.segment_ends.specs.Releases.{Told, Only, stops, stops_at, Stopped, PastBlock};

use characters::Characters;
use first_found::before_first;
use line_breaks::after_breaks;
use release_marks::{closed, is_marked, is_marked_at, misread};
use scanner::{Scanned, scan};
use std::ops::ControlFlow;
use storing::is_service;

// So many of sixty-four bytes are neither `a` nor `b`: all of them, or those before the first that is.
fn before_either(s: &[u8], a: u8, b: u8, from: usize) -> usize
    requires { from + 64 ≤ length s.now }
    ensures { (result ≤ 64) × Others a b s.now from (from + result) }
{
    before_first::<64, _>(|k| {
        let at = from + usize::from(k);
        (s[at] == a) | (s[at] == b)
    })
}

// The place of the next byte that is `a` or `b`, byte by byte, or the end.
fn up_to_either(s: &[u8], a: u8, b: u8, from: usize) -> usize
    ensures { (from ≤ result) × Others a b s.now from result }
{
    (from..s.len())
        .find(|&at| (s[at] == a) | (s[at] == b))
        .unwrap_or(from.max(s.len()))
}

// The segment ends, and the next one begins at this place; or how it ends is told from this place on; or
// neither is known. (Three cases: an `Option` of a `ControlFlow` would name none of them.)
#[derive(Clone, Copy)]
enum Passed {
    Ended(usize),
    On(usize),
    Other,
}

// One byte, with the byte that it takes with it. (`release` goes beside `c`, here and below, since `segment_ended` is handed it so.)
fn pass_token(s: &[u8], c: Characters, release: u8, at: usize) -> Passed
    requires { release ≡ releasing c (role c c.release) }
    ensures { Moves c s.now at result }
{
    if s.len() <= at {
        return Passed::Other;
    }
    let next = at + 1;
    if s[at] == c.terminator {
        return Passed::Ended(after_breaks(s, next));
    }
    if s[at] != release {
        return Passed::On(next);
    }
    if s.len() <= next {
        return Passed::Other;
    }
    if is_service(c, s[next]) {
        return Passed::On(next + 1);
    }
    Passed::Other
}

// The way on stops at the byte `a`: it is misread, or it is a terminator that is not released. `this` and
// `next` say whether it and the byte after it are taken for released. (What `stretches` has under this name and the names
// below stops at something else and promises something else; what both share is in `first_found` and `release_marks`.)
fn stops(c: Characters, this: bool, next: bool, a: u8) -> bool
    ensures { result ≡ stops c this next a }
{
    misread(c, this, next, a) | (!this & (a == c.terminator))
}

// The same of the byte four places on, where the four before it say which are taken for released.
fn stops_at(s: &[u8], c: Characters, at: usize) -> bool
    requires { at + 5 ≤ length s.now }
    ensures { result ≡ stops_at c s.now at }
{
    let this = is_marked(c, s[at + 3], s[at + 2], s[at + 1], s[at]);
    let next = is_marked(c, s[at + 4], s[at + 3], s[at + 2], s[at + 1]);
    stops(c, this, next, s[at + 4])
}

// The first of thirty-two bytes at which the way on stops, or 32. They begin four places on, and the first is
// not released. Which of the others are is only guessed: where a guess is wrong the way on stops. (That the release character
// releases is asked of the caller, here and below: a struct that keeps it would be made of `c` alone, at the one call in `pass`.)
fn first_stop(s: &[u8], c: Characters, from: usize) -> usize
    requires { (from + 36 ≤ length s.now) × (role c c.release ≡ Release) × (marked_at c s.now from ≡ false) }
    ensures { Stopped c s.now from result }
{
    before_first::<32, _>(|k| stops_at(s, c, from + usize::from(k)))
}

// So many of thirty-two bytes tell nothing of how the segment ends. The last two calls are the same: where all
// bytes are passed the count is a constant, and the processor need not wait for what the loop finds.
fn before_stop(s: &[u8], c: Characters, from: usize) -> usize
    requires { (4 ≤ from) × (from + 32 ≤ length s.now) × (role c c.release ≡ Release) }
    ensures { (result ≤ 32) × Told c s.now from (from + result) }
{
    let base = from - 4;
    if is_marked_at(s, c, base) {
        return 0;
    }
    let count = first_stop(s, c, base);
    if count == 32 {
        return closed(s, c, base, 32);
    }
    closed(s, c, base, count)
}

// Where it says yes, sixteen bytes are all `b`. It never ends early, so that all are asked at once. (The index stays: what
// is promised, and what a loop over such blocks goes on with, is told by places.)
fn holds_only(s: &[u8], b: u8, from: usize) -> bool
    requires { from + 16 ≤ length s.now }
    ensures { result ≡ true → Only b s.now from (from + 16) }
{
    let mut only = true;
    for at in from..from + 16 {
        only &= s[at] == b;
    }
    only
}

// The place after release characters that stand side by side, sixteen at once: each takes the next one. (A `for`
// by sixteen would not tell the place of the last few. `past_others` of `scanner` goes so by another test: one loop of both would
// be handed the test, and leave each the law that joins two blocks.)
fn past_releases(s: &[u8], c: Characters, from: usize) -> usize
    requires { role c c.release ≡ Release }
    ensures { Told c s.now from result }
{
    let mut at = from;
    while at < s.len() {
        if s.len() - at < 16 {
            return at;
        }
        if !holds_only(s, c.release, at) {
            return at;
        }
        at += 16;
    }
    at
}

// A service character; most often it is the release character itself.
fn is_taken(c: Characters, b: u8) -> bool
    requires { role c c.release ≡ Release }
    ensures { result ≡ is_service c b }
{
    b == c.release || is_service(c, b)
}

// The place after release characters, each with the service character that it takes, of which none may stand
// there. (One condition of all four was tried: with what is kept in registers then, a segment costs up to 2 in 100 more. A
// `for` by two would not tell the place of the last.)
fn past_taken(s: &[u8], c: Characters, from: usize) -> usize
    requires { role c c.release ≡ Release }
    ensures { Told c s.now from result }
{
    let mut at = past_releases(s, c, from);
    while at < s.len() {
        let next = at + 1;
        if s.len() <= next {
            return at;
        }
        if s[at] != c.release {
            return at;
        }
        if !is_taken(c, s[next]) {
            return at;
        }
        at = next + 1;
    }
    at
}

// Past thirty-two bytes, or thirty-one where the last takes the next one with it, or up to where the way on
// stops; more than four release characters that stand side by side are passed two by two. From the place on it is
// told how the segment ends.
fn past_block(s: &[u8], c: Characters, from: usize) -> ControlFlow<usize, usize>
    requires { (4 ≤ from) × (from + 32 ≤ length s.now) × (role c c.release ≡ Release) }
    ensures { PastBlock c s.now from result }
{
    let count = before_stop(s, c, from);
    let to = from + count;
    if 31 <= count {
        return ControlFlow::Continue(to);
    }
    if s[to] != c.release {
        return ControlFlow::Break(to);
    }
    let next = past_taken(s, c, to);
    if to < next {
        return ControlFlow::Continue(next);
    }
    ControlFlow::Break(next)
}

// Between release characters that stand close together, block by block; and one byte, with the byte that it
// takes, where the way on stops. Where few bytes stand before or after they are passed one by one. (How far a block goes no
// `for` would know, here and below.)
fn pass_marked(s: &[u8], c: Characters, from: usize) -> Passed
    requires { role c c.release ≡ Release }
    ensures { Moves c s.now from result }
{
    let mut at = from;
    while at < s.len() {
        if (at < 4) | (s.len() - at < 32) {
            return pass_token(
                s,
                c,
                c.release,
                up_to_either(s, c.terminator, c.release, at),
            );
        }
        match past_block(s, c, at) {
            ControlFlow::Continue(to) => at = to,
            ControlFlow::Break(to) => return pass_token(s, c, c.release, to),
        }
    }
    Passed::Other
}

// Up to the first terminator or release character of sixty-four bytes, and on from there.
fn pass(s: &[u8], c: Characters, release: u8, at: usize) -> Passed
    requires { (at + 64 ≤ length s.now) × (release ≡ releasing c (role c c.release)) }
    ensures { Moves c s.now at result }
{
    let count = before_either(s, c.terminator, release, at);
    if count == 64 {
        return Passed::On(at + 64);
    }
    let place = at + count;
    if (release == c.terminator) | (s[place] == c.terminator) {
        return pass_token(s, c, release, place);
    }
    pass_marked(s, c, place)
}

// How the segment that begins at a place ends. `release` is what `scanner::releasing` says.
pub fn segment_ended(s: &[u8], c: Characters, release: u8, from: usize) -> Scanned
    requires { release ≡ releasing c (role c c.release) }
    ensures { Scans c s.now from result }
{
    let mut at = from;
    while at < s.len() {
        if s.len() - at < 64 {
            return scan(s, c, at);
        }
        match pass(s, c, release, at) {
            Passed::Ended(next) => {
                return Scanned::Ended { next };
            }
            Passed::On(next) => {
                at = next;
            }
            Passed::Other => {
                return scan(s, c, at);
            }
        }
    }
    Scanned::Unended
}
