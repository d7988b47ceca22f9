// Parts of a text without their line breaks, measured and stored. Where a text is known to have none, which is
// asked once, no byte of a part is asked. It promises the part without the bytes below the space, as
// `line_breaks` does of a whole text.
#![tactic(auto)]

ghost use Rattle.std.specs.Prelude.{true, ◌≡◌, ◌+◌, ◌≤◌, length, take, drop};
ghost use Rattle.std.proofs.lemmas.List.Edits.{sets};
ghost use Rattle.line_breaks.specs.Unbroken.{unbroken};
ghost use Rattle.unbroken_parts.specs.Parts.{Unbroken};

use line_breaks::{put_unbroken, unbroken_length};
use storing::copy;

// Where it says yes, no byte from a place on is below the space. The loop never ends early, so that many
// bytes are asked at once. (The index stays: a slice from `start` on is there only where `start` is no place behind the end.)
pub fn is_unbroken(s: &[u8], start: usize) -> bool
    ensures { result ≡ true → Unbroken s.now start }
{
    let mut whole = true;
    for at in start..s.len() {
        whole &= 32 <= s[at];
    }
    whole
}

// How long the text from a place up to another is without its breaks; `whole` says that it has none. (It is found when it runs,
// once for a text: two functions, here and below, would leave each caller the same `if`.)
pub fn length_between(s: &[u8], whole: bool, from: usize, to: usize) -> usize
    requires { (from ≤ to) × (to ≤ length s.now) × (whole ≡ true → Unbroken s.now from) }
    ensures { result ≡ length (unbroken (drop from (take to s.now))) }
{
    if whole {
        return to - from;
    }
    unbroken_length(&s[..to], from)
}

// Stores it from a place of the buffer on, and returns the place after it.
pub fn put_between(
    buffer: &mut [u8],
    into: usize,
    s: &[u8],
    whole: bool,
    from: usize,
    to: usize,
) -> usize
    requires { (into + length (unbroken (drop from (take to s.now))) ≤ length buffer.old) × (from ≤ to) × (to ≤ length s.now) × (whole ≡ true → Unbroken s.now from) }
    ensures { (buffer.new ≡ sets buffer.old into (unbroken (drop from (take to s.now)))) × (result ≡ into + length (unbroken (drop from (take to s.now)))) }
{
    if whole {
        copy(buffer, into, &s[..to], from);
        return into + (to - from);
    }
    put_unbroken(buffer, into, &s[..to], from)
}
