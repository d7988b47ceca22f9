// Compare and Keep (paper 01, "Operations"). Compare promises, for any bytes, the answer that
// `operations` gives; Keep which part of which input it hands back. No input is judged twice, and one
// that has the other's bytes not at all, nor most often one that has those of the other's normal form. Others
// are compared by their normal forms, for which two arrays are taken from the stack: 64,000 bytes, or 16,384 or 4,096
// where both inputs are short.
#![tactic(auto)]

ghost use Rattle.std.specs.Prelude.{◌≡◌, ◌≤◌, replicate};
ghost use Rattle.refusals.specs.Limits.{most_bytes};
ghost use Rattle.answers.specs.Answers.{told_compared};
ghost use Rattle.operations.specs.Compare.{keep as keep_of};
ghost use Rattle.contracts.specs.Promises.{Compares, Keeps};
ghost use Rattle.judge.specs.Judging.{Passed};
ghost use Rattle.compare.specs.Forms.{IsForm, Room, compared_to};
ghost use Rattle.compare.specs.Parts.{part_of};

use answers::Unaccepted;
use refusals::MOST_BYTES;
use stage_opening::Found;
use texts::equal;

// An input that 1 to 12 pass, compared with its own bytes: it is the same unless 13 is met, which is
// asked only where a bound does not tell.
fn compare_itself(s: &[u8], found: Found) -> Result<bool, Unaccepted>
    requires { Passed s.now found }
    ensures { Compares s.now s.now result }
{
    if judge::most_length(s, found) <= MOST_BYTES {
        return Ok(true);
    }
    judge::judge_length(s, found).map_err(Unaccepted::First)?;
    Ok(true)
}

// The second, where the first is accepted and this is its normal form. A second that has these bytes is
// the same and is not judged, since a normal form is accepted and is its own; another's normal form is
// stored in the buffer.
fn compare_with(text: &[u8], buffer: &mut [u8], second: &[u8]) -> Result<bool, Unaccepted>
    requires { IsForm text.now × Room buffer.old second.now }
    ensures { told_compared result ≡ compared_to text.now second.now }
{
    if equal(text, second) {
        return Ok(true);
    }
    let n = normalise::normalise(buffer, second).map_err(Unaccepted::Second)?;
    Ok(equal(text, &buffer[..n]))
}

// Both, where 1 to 12 pass the first; their normal forms are stored in the buffers.
fn compare_in(
    a: &mut [u8],
    b: &mut [u8],
    first: &[u8],
    second: &[u8],
    found: Found,
) -> Result<bool, Unaccepted>
    requires { Passed first.now found × Room a.old first.now × Room b.old second.now }
    ensures { Compares first.now second.now result }
{
    let n = normalise::store_found(a, first, found).map_err(Unaccepted::First)?;
    compare_with(&a[..n], b, second)
}

// In arrays of so many bytes, which have room for both normal forms.
fn compare_within<const N: usize>(
    first: &[u8],
    second: &[u8],
    found: Found,
) -> Result<bool, Unaccepted>
    requires { (N ≤ most_bytes) × Passed first.now found × Room (replicate N 0) first.now × Room (replicate N 0) second.now }
    ensures { Compares first.now second.now result }
{
    let mut a = [0u8; N];
    let mut b = [0u8; N];
    compare_in(&mut a, &mut b, first, second, found)
}

// The first passes 1 to 12. A normal form has at most 2n + 9 bytes for n bytes; clearing larger arrays than are needed
// would take long beside judging short inputs.
fn compare_passed(first: &[u8], second: &[u8], found: Found) -> Result<bool, Unaccepted>
    requires { Passed first.now found }
    ensures { Compares first.now second.now result }
{
    if equal(first, second) {
        return compare_itself(first, found);
    }
    let longest = first.len().max(second.len());
    if 4091 < longest {
        return compare_within::<MOST_BYTES>(first, second, found);
    }
    if 1019 < longest {
        return compare_within::<8192>(first, second, found);
    }
    compare_within::<2048>(first, second, found)
}

// The first is normalised first, and its normal form held against the second's bytes.
fn compare_in_order(first: &[u8], second: &[u8]) -> Result<bool, Unaccepted>
    ensures { Compares first.now second.now result }
{
    let found = judge::stages_to_12(first).map_err(Unaccepted::First)?;
    compare_passed(first, second, found)
}

// The second is normalised first, and its normal form held against the first's bytes. "1st is judged
// first": where the second is refused, the first's refusal answers before it.
fn compare_turned(first: &[u8], second: &[u8]) -> Result<bool, Unaccepted>
    ensures { Compares first.now second.now result }
{
    match compare_in_order(second, first) {
        Ok(same) => Ok(same),
        Err(Unaccepted::Second(r)) => Err(Unaccepted::First(r)),
        Err(Unaccepted::First(r)) => {
            judge::judge(first).map_err(Unaccepted::First)?;
            Err(Unaccepted::Second(r))
        }
    }
}

// The input has the separators, the release character and the terminator where every normal form has
// them, in its advice.
fn begins_normal(s: &[u8]) -> bool {
    matches!(s, [_, _, _, b':', b'+', _, b'?', _, b'\'', ..])
}

// The first may be the second's normal form: it begins as one, and the second does not or is longer.
// Whatever is said here, the answer is the same; it only comes later where this is wrong.
fn may_be_form(first: &[u8], second: &[u8]) -> bool {
    begins_normal(first) && (first.len() < second.len() || !begins_normal(second))
}

// What may be the other's normal form is not normalised first, since it need not be judged where it is.
pub fn compare(first: &[u8], second: &[u8]) -> Result<bool, Unaccepted>
    ensures { Compares first.now second.now result }
{
    if may_be_form(first, second) {
        return compare_turned(first, second);
    }
    compare_in_order(first, second)
}

// What Keep hands back: so many bytes from the start of the first input or of the second. (Neither is an error or a lack, which a `Result` or
// an `Option` would call one of them.)
#[derive(Clone, Copy)]
pub enum Kept {
    First(usize),
    Second(usize),
}

// The shorter of two that are the same, the first where equally long; else no byte of the first.
pub fn kept_part(first: &[u8], second: &[u8]) -> Kept
    ensures { part_of result ≡ keep_of first.now second.now }
{
    match compare(first, second) {
        Ok(true) => {
            if second.len() < first.len() {
                return Kept::Second(second.len());
            }
            Kept::First(first.len())
        }
        // Two arms: of an arm for both a proof does not see what it matched.
        Ok(false) => Kept::First(0),
        Err(_) => Kept::First(0),
    }
}

// The part as a slice.
pub fn keep<'a>(first: &'a [u8], second: &'a [u8]) -> &'a [u8]
    ensures { Keeps first.entry second.entry result }
{
    match kept_part(first, second) {
        Kept::First(n) => &first[..n],
        Kept::Second(n) => &second[..n],
    }
}
