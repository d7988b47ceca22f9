// Parts of a body that stand as its normal form spells them (paper 01, "Normal form"), but for line breaks
// between segments: the service characters are the normal form's, and there is nothing to trim. It
// promises that what is emitted from a place on is the part without its line breaks, and then what is
// emitted after it. Empty ends are looked for in sixty-four bytes at once.
#![tactic(auto)]

ghost use Rattle.std.specs.Prelude.{true, ◌≡◌, ◌+◌, ◌≤◌, ◌<◌, length};
ghost use Rattle.clear_parts.specs.Clear.{Clear, EndsInValue, ClearPart};

use characters::Characters;
use first_found::{after_last, before_first};
use storing::is_service;
use verbatim::{ends_repeat, is_idle, is_normal};

// Over so many of sixty-four bytes nothing is idle: over all of them, or up to the first after which
// something is.
fn before_idle(s: &[u8], c: Characters, from: usize) -> usize
    requires { from + 64 < length s.now }
    ensures { (result ≤ 64) × Clear c s.now from (from + result) }
{
    let r = ends_repeat(c);
    before_first::<64, _>(|k| {
        let at = from + usize::from(k);
        is_idle(c, r, s[at], s[at + 1])
    })
}

// A place up to which nothing is idle: before what is, or one of the last few bytes. (A `for` by sixty-four would not tell
// the place of the last few. `past_blocks` of `stretches` goes so by thirty-two: one loop of both would be handed the size, the
// test and what it promises, and leave each the law that joins two blocks.)
fn past_clear(s: &[u8], c: Characters, from: usize) -> usize
    ensures { (from ≤ result) × Clear c s.now from result }
{
    let mut at = from;
    while at < s.len() {
        if s.len() - at <= 64 {
            return at;
        }
        let count = before_idle(s, c, at);
        if count < 64 {
            return at + count;
        }
        at += 64;
    }
    at
}

// The last place up to `to` before which a byte of a value stands that is no line break, or `from`.
fn back_to_value(s: &[u8], c: Characters, from: usize, to: usize) -> usize
    requires { (from ≤ to) × (from < to → to ≤ length s.now) }
    ensures { (from ≤ result) × (result ≤ to) × EndsInValue c s.now from result }
{
    after_last(s, from, to, |b| !is_service(c, b) & (32 <= b))
}

// A place up to which a part goes that begins at a place where nothing is held back.
pub fn clear_end(s: &[u8], c: Characters, repetition: u8, from: usize) -> usize
    requires { 32 ≤ repetition }
    ensures { ClearPart c repetition s.now from result }
{
    if !is_normal(c, repetition) {
        return from;
    }
    let most = past_clear(s, c, from);
    back_to_value(s, c, from, most)
}
