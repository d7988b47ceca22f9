// Line breaks (request 2026-01): whether a byte is one, the place after those that stand at a place, and
// a text without them, measured or stored. Where breaks may stand is left to others.
#![tactic(auto)]

ghost use Rattle.std.specs.Prelude.{◌≡◌, ◌+◌, ◌≤◌, length, drop};
ghost use Rattle.std.proofs.lemmas.List.Edits.{sets};
ghost use Rattle.characters.specs.Characters.{is_break, after_breaks};
ghost use Rattle.line_breaks.specs.Unbroken.{unbroken};

use storing::copy;

// A carriage return or a line feed.
pub fn is_break(b: u8) -> bool
    ensures { result ≡ is_break b }
{
    (b == 13) | (b == 10)
}

// The place after the breaks that stand at a place, byte by byte.
fn past_breaks(s: &[u8], from: usize) -> usize
    requires { from ≤ length s.now }
    ensures { result ≡ after_breaks s.now from }
{
    (from..s.len())
        .find(|&at| !is_break(s[at]))
        .unwrap_or(s.len())
}

// The place after the breaks that stand at a place. Where there are none, which is most often so, one
// comparison tells: a byte above 13 is none.
pub fn after_breaks(s: &[u8], from: usize) -> usize
    ensures { result ≡ after_breaks s.now from }
{
    if s.len() <= from || 13 < s[from] {
        return from;
    }
    past_breaks(s, from)
}

// How many bytes of a part are no control bytes. The count fits a byte, and nothing branches on what a
// byte is, so that many bytes are counted at once. (`part_unshared` of `length_bound` counts so with another test. Below both stands
// `storing` alone, which counts nothing; and one of both would still leave each its loop over parts, of another size.)
fn part_length(part: &[u8]) -> u8
    requires { length part.now ≤ 255 }
    ensures { result ≡ length (unbroken part.now) }
{
    let mut count: u8 = 0;
    for &b in part {
        count += u8::from(32 <= b);
    }
    count
}

// How long the text from a place on is without its breaks, part by part: a part has 224 bytes, and the last
// has fewer. (`chunks` does not tell the compiler that a part is full; `length_bound` tried it.)
pub fn unbroken_length(s: &[u8], start: usize) -> usize
    ensures { result ≡ length (unbroken (drop start s.now)) }
{
    let mut count: usize = 0;
    let mut rest = &s[start.min(s.len())..];
    while 224 <= rest.len() {
        let (part, after) = rest.split_at(224);
        count += usize::from(part_length(part));
        rest = after;
    }
    count + usize::from(part_length(rest))
}

// Stores the text from a place on without its breaks, of which `count` bytes are left, from a place of
// the buffer on. A break is stored too, and the byte after it takes its place: the loop ends with the
// last byte that is none. (A `for` over the bytes would test twice at each byte: whether there is another, and `to`.)
fn copy_unbroken(buffer: &mut [u8], from: usize, s: &[u8], start: usize, count: usize)
    requires { (count ≡ length (unbroken (drop start s.now))) × (from + count ≤ length buffer.old) }
    ensures { buffer.new ≡ sets buffer.old from (unbroken (drop start s.now)) }
{
    let end = from + count;
    let mut at = start;
    let mut to = from;
    while to < end {
        let b = s[at];
        buffer[to] = b;
        to += usize::from(32 <= b);
        at += 1;
    }
}

// The same of any text, and the place after it; a text that has no breaks is copied.
pub fn put_unbroken(buffer: &mut [u8], from: usize, s: &[u8], start: usize) -> usize
    requires { from + length (unbroken (drop start s.now)) ≤ length buffer.old }
    ensures { (buffer.new ≡ sets buffer.old from (unbroken (drop start s.now))) × (result ≡ from + length (unbroken (drop start s.now))) }
{
    if s.len() <= start {
        return from;
    }
    let count = unbroken_length(s, start);
    if count == s.len() - start {
        copy(buffer, from, s, start);
        return from + count;
    }
    copy_unbroken(buffer, from, s, start, count);
    from + count
}
