// A length that the contents of a body do not exceed in its normal form (paper 01, "Normal form"), without
// measuring them: one byte for each byte, and a release character for each that is to be released and was
// not. It promises that number, and the law in proofs/ that it is a bound.
#![tactic(auto)]

ghost use Rattle.std.specs.Prelude.{◌≡◌, ◌+◌, ◌≤◌, length, drop};
ghost use Rattle.refusals.specs.Limits.{most_bytes};
ghost use Rattle.length_bound.specs.Bound.{counted, most_contents};
ghost use Rattle.length_bound.specs.Unshared.{unshared, is_unshared};

use characters::Characters;
use storing::is_service;
use verbatim::{is_normal, normal_characters};

// Which service characters of the normal form are no service characters of the input.
#[derive(Clone, Copy)]
struct Unshared {
    component: bool,
    element: bool,
    release: bool,
    repetition: bool,
    terminator: bool,
}

fn unshared_of(c: Characters, n: Characters) -> Unshared
    ensures { result ≡ unshared c n }
{
    Unshared {
        component: !is_service(c, n.component),
        element: !is_service(c, n.element),
        release: (n.release != 32) & !is_service(c, n.release),
        repetition: (n.repetition != 32) & !is_service(c, n.repetition),
        terminator: !is_service(c, n.terminator),
    }
}

// The byte is one of them: inside a value it is to be released, and was not. Nothing here branches, so
// that many bytes are asked at once.
fn is_unshared(n: Characters, u: Unshared, b: u8) -> bool
    ensures { result ≡ is_unshared n u b }
{
    let release = u.release & (b == n.release);
    let others = (u.repetition & (b == n.repetition)) | release;
    let last = (u.terminator & (b == n.terminator)) | others;
    (u.component & (b == n.component)) | ((u.element & (b == n.element)) | last)
}

// How many bytes of a part are such bytes. The count fits a byte, and the loop never ends early, so that
// many bytes are counted at once. (`line_breaks` says at `part_length` why there is none for both.)
fn part_unshared(part: &[u8], n: Characters, u: Unshared) -> u8
    requires { length part.now ≤ 128 }
    ensures { result ≡ counted (is_unshared n u) part.now }
{
    let mut count: u8 = 0;
    for &b in part {
        count += u8::from(is_unshared(n, u, b));
    }
    count
}

// How many bytes are, part by part: a part has 128 bytes, and the last has fewer. (`chunks(128)` was tried:
// since it does not tell the compiler that a part is full, it costs some 15 in 100 more.)
fn count_unshared(s: &[u8], n: Characters, u: Unshared) -> usize
    ensures { result ≡ counted (is_unshared n u) s.now }
{
    let mut count: usize = 0;
    let mut rest = s;
    while 128 <= rest.len() {
        let (part, after) = rest.split_at(128);
        count += usize::from(part_unshared(part, n, u));
        rest = after;
    }
    count + usize::from(part_unshared(rest, n, u))
}

// A length that these contents do not exceed: one byte for each byte of the body, and a release character
// for each that is to be released and was not. Where the characters are the normal form's, none is.
pub fn at_most(s: &[u8], c: Characters, start: usize, repetition: u8) -> usize
    requires { (length s.now ≤ most_bytes) × (start ≤ length s.now) }
    ensures { result ≡ most_contents c repetition (drop start s.now) }
{
    let count = s.len() - start;
    if is_normal(c, repetition) {
        return count;
    }
    let n = normal_characters(c.mark, repetition);
    count + count_unshared(&s[start..], n, unshared_of(c, n))
}
