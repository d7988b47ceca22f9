// The text of a value list (paper 01, "Write": "always an advice, then the trimmed list"), composed
// record by record with separators held back: how long it is, and its bytes in a lent buffer.
#![tactic(auto)]

ghost use Rattle.std.specs.Prelude.{◌≡◌, true, ◌+◌, ◌≤◌, length};
ghost use Rattle.std.proofs.lemmas.List.Edits.{sets};
ghost use Rattle.emission_laws.specs.Emission.{waiting};
ghost use Rattle.held_separators.specs.Putting.{Fits, Puts};
ghost use Rattle.operations.specs.ValueList.{rank_of, listed_in};
ghost use Rattle.value_lists.specs.Records.{well_listed};
ghost use Rattle.value_list_text.specs.Composing.{record_tokens, first_measure, composed_text, short_length, item_of, Storable, HasRoom, Composes};
ghost use Rattle.refusals.specs.Limits.{most_numbers, most_spelled};

use characters::Characters;
use emission_laws::Measure;
use held_separators::{nothing_held, put_separator, put_value};
use storing::{Measured, Sink, Stored, put_advice};
use value_lists::{Record, record_at, value_of};

// The rank of the separator in front of a record of a kind. (Both are numbers, as `value_lists` and `held_separators` say.)
pub fn rank_of(kind: u32) -> u8
    ensures { result ≡ rank_of kind }
{
    match kind {
        0 => 0,
        1 => 1,
        3 => 2,
        _ => 3,
    }
}

// ---- the records

// The text with nothing but its advice, of which the last byte is stored as it would end a segment.
pub fn first_measure() -> Measure
    ensures { result ≡ first_measure }
{
    Measure {
        total: 8,
        held: nothing_held(),
    }
}

// Puts a record where the text ends: its separator, and its value.
pub fn put_record<S: Sink>(
    buffer: &mut [u8],
    m: Measure,
    c: Characters,
    bytes: &[u8],
    r: Record,
) -> Measure
    requires { (r.start + r.size ≤ length bytes.now) × (m.total + waiting m.held ≤ most_spelled) × (Fits S.room c buffer.old m (record_tokens (item_of bytes.now r))) }
    ensures { Puts S.holds c buffer.old m (record_tokens (item_of bytes.now r)) buffer.new result }
{
    let kept = put_separator::<S>(buffer, m, c, rank_of(r.kind));
    put_value::<S>(buffer, kept, c, value_of(bytes, r))
}

// A length that a text may have, of which no more is asked.
pub fn short_length(n: usize) -> Option<usize>
    ensures { result ≡ short_length n }
{
    (n <= refusals::MOST_BYTES).then_some(n)
}

// Puts the records from the advice's last byte on, and returns the length of the text: the first ends the advice as it
// would end a segment. A text over 32,000 bytes is given up where that is seen.
fn put_records<S: Sink>(
    buffer: &mut [u8],
    c: Characters,
    bytes: &[u8],
    table: &[u32],
) -> Option<usize>
    requires { (well_listed bytes.now table.now ≡ true) × (length table.now ≤ most_numbers) × HasRoom S.room (composed_text c (listed_in bytes.now table.now)) buffer.old }
    ensures { Composes S.holds c (listed_in bytes.now table.now) buffer.old buffer.new result }
{
    let mut m = first_measure();
    for numbers in table.chunks_exact(3) {
        let r = record_at(numbers, 0);
        short_length(r.size as usize)?;
        m = put_record::<S>(buffer, m, c, bytes, r);
        short_length(m.total)?;
    }
    short_length(put_separator::<S>(buffer, m, c, 0).total)
}

// ---- the text

// The length of the text, where it is no more than 32,000 bytes.
pub fn text_length(c: Characters, bytes: &[u8], table: &[u32]) -> Option<usize>
    requires { (well_listed bytes.now table.now ≡ true) × (length table.now ≤ most_numbers) }
    ensures { result ≡ short_length (length (composed_text c (listed_in bytes.now table.now))) }
{
    put_records::<Measured>(&mut [], c, bytes, table)
}

// Stores the text at the front.
pub fn put_text(buffer: &mut [u8], c: Characters, bytes: &[u8], table: &[u32])
    requires { Storable c bytes.now table.now buffer.old }
    ensures { buffer.new ≡ sets buffer.old 0 (composed_text c (listed_in bytes.now table.now)) }
{
    put_advice(buffer, c);
    put_records::<Stored>(buffer, c, bytes, table);
}
