// Which bytes are released, between release characters that stand close together. Of each byte it is guessed
// by the four bytes before it, so that many are asked at once. Where a guess is wrong a byte is misread, and
// what goes from byte to byte stops there: nothing rests on a guess. It promises what is guessed, and which
// bytes are misread.
#![tactic(auto)]

ghost use Rattle.std.specs.Prelude.{false, ◌≡◌, ◌+◌, ◌≤◌, length};
ghost use Rattle.release_marks.specs.Marks.{marked, marked_at, misread, closed_at};

use characters::Characters;
use storing::is_service;

// A byte is taken for released: one release character stands before it, or three. The four bytes before it
// are named from the nearest on. (A struct of the four would be made anew for each byte, and taken apart again.)
pub fn is_marked(c: Characters, b: u8, d: u8, e: u8, f: u8) -> bool
    ensures { result ≡ marked c b d e f }
{
    (b == c.release) & ((d != c.release) | ((e == c.release) & (f != c.release)))
}

// The same of the byte four places on.
pub fn is_marked_at(s: &[u8], c: Characters, at: usize) -> bool
    requires { at + 4 ≤ length s.now }
    ensures { result ≡ marked_at c s.now at }
{
    let second = at + 1;
    let third = second + 1;
    let fourth = third + 1;
    if s[fourth] != c.release {
        return false;
    }
    is_marked(c, s[fourth], s[third], s[second], s[at])
}

// The byte `a` is misread; `this` and `next` say whether it and the byte after it are taken for released.
// Either the next one is taken wrongly, or `a` is taken for released and is no service character.
pub fn misread(c: Characters, this: bool, next: bool, a: u8) -> bool
    ensures { result ≡ misread c this next a }
{
    let opens = !this & (a == c.release);
    let mistaken = (next & !opens) | (opens & !next);
    mistaken | (this & !is_service(c, a))
}

// How many of so many bytes to pass, which begin four places on with one that is not released: all, or all but
// the last where that releases the byte after it, from which it would be cut off.
pub fn closed(s: &[u8], c: Characters, base: usize, count: usize) -> usize
    requires { (base + count + 4 ≤ length s.now) × (marked_at c s.now base ≡ false) }
    ensures { result ≡ closed_at c s.now base count }
{
    count - usize::from(is_marked_at(s, c, base + count))
}
