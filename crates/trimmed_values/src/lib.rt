// The values of a segment's trimmed contents (paper 01, "Trimming"), where they are spelled: no code trims.
// It promises, by element, repeat and component, whether trimming leaves the value and where it stands;
// whether an element is one repeat, or one value; and whether a value is the same as another or as a text, by
// its bytes without their release characters. All of it holds of any segment, ended or not, but for a value's
// length.
#![tactic(auto)]

ghost use Rattle.std.specs.Prelude.{◌≡◌, false};
ghost use Rattle.lists.specs.Lists.{same};
ghost use Rattle.values.specs.Values.{ends_inside};
ghost use Rattle.values.specs.Trimming.{trimmed, value_at};
ghost use Rattle.values.specs.Tokens.{tokens_at};
ghost use Rattle.scanner.specs.Scan.{segment_at};
ghost use Rattle.elements.specs.Values.{value_in};
ghost use Rattle.trimmed_values.specs.Trimmed.{stays_in, is_unrepeated, is_alone, placed, Inside, is_ended};

use characters::Characters;
use elements::{NextByte, byte_at, component_at, element_at, holds_byte, repeat_at, value_end};
use values::Span;

// Trimming keeps the piece of that number, which begins at `from`, of what a separator of this rank
// ends.
fn stays(s: &[u8], c: Characters, from: usize, rank: u8, number: usize) -> bool
    ensures { result ≡ stays_in rank number (tokens_at c s.now from) }
{
    if number == 0 {
        from < s.len()
    } else {
        holds_byte(s, c, from, rank)
    }
}

// Where the value stands and how long it is spelled there, by element, repeat and component, in the contents of the segment that begins at `start`. The
// input may not end inside a segment: a value that nothing ends has no length. (The three numbers stay apart, here and in `locate`: C gives
// them so, and the definition of `value_at` takes them so.)
pub fn value_at(
    s: &[u8],
    c: Characters,
    start: usize,
    element: usize,
    repeat: usize,
    component: usize,
) -> Option<Span>
    requires { ends_inside (tokens_at c s.now start) ≡ false }
    ensures { (result ≡ placed (value_at (trimmed (segment_at c s.now start)) element repeat component)) × Inside s.now result }
{
    let from = element_at(s, c, start, element);
    if !stays(s, c, from, 0, element) {
        return None;
    }
    let begins = repeat_at(s, c, from, repeat);
    if !stays(s, c, begins, 1, repeat) {
        return None;
    }
    let at = component_at(s, c, begins, component);
    if !stays(s, c, at, 2, component) {
        return None;
    }
    let end = value_end(s, c, at);
    Some(Span {
        offset: at,
        length: end - at,
    })
}

// Only empty repeats follow the first of the element that begins at `from`.
pub fn is_unrepeated(s: &[u8], c: Characters, from: usize) -> bool
    ensures { result ≡ is_unrepeated (tokens_at c s.now from) }
{
    !holds_byte(s, c, repeat_at(s, c, from, 1), 1)
}

// Only empty values follow, in its element, the value that begins at `from`.
pub fn is_alone(s: &[u8], c: Characters, from: usize) -> bool
    ensures { result ≡ is_alone (tokens_at c s.now from) }
{
    !holds_byte(s, c, value_end(s, c, from), 1)
}

fn is_ended(next: NextByte) -> bool
    ensures { result ≡ is_ended next }
{
    matches!(next, NextByte::Ended { .. })
}

// The values that begin at two places are the same. (Each is read by its own places, which no `zip` knows.)
pub fn same_value(s: &[u8], c: Characters, first: usize, second: usize) -> bool
    ensures { result ≡ same (value_in (tokens_at c s.now first)) (value_in (tokens_at c s.now second)) }
{
    let mut a = first;
    let mut b = second;
    loop {
        let NextByte::Byte { byte, next } = byte_at(s, c, a) else {
            return is_ended(byte_at(s, c, b));
        };
        let NextByte::Byte {
            byte: other,
            next: after,
        } = byte_at(s, c, b)
        else {
            return false;
        };
        if byte != other {
            return false;
        }
        a = next;
        b = after;
    }
}

// The value that begins at `from` is that text.
pub fn is_text(s: &[u8], c: Characters, from: usize, text: &[u8]) -> bool
    ensures { result ≡ same (value_in (tokens_at c s.now from)) text.now }
{
    let mut at = from;
    for &letter in text {
        let NextByte::Byte { byte, next } = byte_at(s, c, at) else {
            return false;
        };
        if byte != letter {
            return false;
        }
        at = next;
    }
    is_ended(byte_at(s, c, at))
}
