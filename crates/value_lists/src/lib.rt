// The checks of a value list that is lent to Write (paper 01, refusals 15 and 16; request 2026-10): a byte buffer of
// values and a table of three numbers a value. It promises, for each, the refusal that answers: that
// of the lowest record which fails. What is written of a list that passes is left to others.
#![tactic(auto)]

ghost use Rattle.std.specs.Prelude.{◌≡◌, ◌+◌, ◌≤◌, Bool, true, Contains, length};
ghost use Rattle.std.specs.List.{list_any};
ghost use Rattle.characters.specs.Characters.{is_service};
ghost use Rattle.refusals.specs.declared.Fault.TheVariants.{BadList, NeedsRelease};
ghost use Rattle.refusals.specs.Refusals.{met, lowest, outcome};
ghost use Rattle.values.specs.Spelling.{leads_break};
ghost use Rattle.operations.specs.ValueList.{Entry, entries, value_in};
ghost use Rattle.operations.specs.Write.{numbers_where, bad_entry, bad_list, lacks_release, lacks_repetition, cannot_stand};
ghost use Rattle.value_lists.specs.declared.Record.{Record};
ghost use Rattle.service_places.specs.Places.{Noted};
ghost use Rattle.value_lists.specs.Records.{entry_of, record_at, first_record, well_listed};

use characters::Characters;
use line_breaks::is_break;
use refusals::{Fault, Refusal};
use refusing::failed;

// ---- records

// Three numbers of a table: the kind, the start and the length of a value. The kind is a number, of which a caller in C may
// lend any: refusal 15 tells those above 3.
#[derive(Clone, Copy)]
pub struct Record {
    pub kind: u32,
    pub start: u32,
    pub size: u32,
}

// The record that begins at a place of the table.
pub fn record_at(table: &[u32], at: usize) -> Record
    requires { at + 3 ≤ length table.now }
    ensures { entry_of result ≡ record_at table.now at }
{
    Record {
        kind: table[at],
        start: table[at + 1],
        size: table[at + 2],
    }
}

// The value of a record. (A `usize` is had of a `u32` by `as`, here and wherever numbers of a table become places: the language
// has no `From` between them, and `try_from` would name an error that cannot come.)
pub fn value_of(bytes: &[u8], r: Record) -> &[u8]
    requires { r.start + r.size ≤ length bytes.now }
    ensures { result.now ≡ value_in bytes.now (entry_of r) }
{
    let start = r.start as usize;
    let end = start + r.size as usize;
    &bytes[start..end]
}

// ---- 15

// The value's first byte is a line break.
fn leads_break(value: &[u8]) -> bool
    ensures { result ≡ leads_break value.now }
{
    value.first().is_some_and(|b| is_break(*b))
}

// The kind is above 3, or the value does not end within the bytes, or it begins a segment with a break.
fn is_bad(bytes: &[u8], r: Record) -> bool
    ensures { result ≡ bad_entry bytes.now (entry_of r) }
{
    r.kind > 3
        || bytes.len() < r.start as usize + r.size as usize
        || (r.kind == 0 && leads_break(value_of(bytes, r)))
}

// The first record of which the test says that it fails.
fn check_each<F: Fn(Record) -> bool>(table: &[u32], fault: Fault, fails: F) -> Result<(), Refusal>
    requires { (r : Record) → Contains (entries table.now) (entry_of r) → F.pre fails r }
    ensures { (test : Entry → Bool) → ((r : Record) (t : Bool) → F.post fails r t → t ≡ test (entry_of r)) → result ≡ outcome (first_record fault test 0 (entries table.now)) }
{
    for (n, numbers) in table.chunks_exact(3).enumerate() {
        if fails(record_at(numbers, 0)) {
            return failed(fault, n);
        }
    }
    Ok(())
}

// What refusal 15 answers. (A struct of the two slices was tried, here and below: an `ensures` would have to name each part as
// `list.entry.bytes.now`, so that the contracts were no plainer.)
pub fn check_list(bytes: &[u8], table: &[u32]) -> Result<(), Refusal>
    ensures { result ≡ outcome (lowest (met BadList (bad_list bytes.now table.now))) }
{
    if refusals::MOST_NUMBERS < table.len()
        || table.len() % 3 != 0
        || table.first().is_some_and(|kind| *kind != 0)
    {
        return failed(Fault::BadList, 0);
    }
    check_each(table, Fault::BadList, |r| is_bad(bytes, r))
}

// ---- 16

// (`service_places` has this test for a block's bytes, all of which it asks: this one ends at the first that passes.)
fn holds_service(c: Characters, value: &[u8]) -> bool
    ensures { result ≡ list_any (is_service c) value.now }
{
    value.iter().any(|b| storing::is_service(c, *b))
}

pub fn lacks_release(c: Characters, value: &[u8]) -> bool
    ensures { result ≡ lacks_release c value.now }
{
    c.release == b' ' && holds_service(c, value)
}

// The record begins a repeat, and nothing separates repeats.
pub fn lacks_repetition(c: Characters, kind: u32) -> bool
    ensures { result ≡ lacks_repetition c kind }
{
    (kind == 3) & (c.repetition == b' ')
}

fn cannot_stand(c: Characters, bytes: &[u8], r: Record) -> bool
    requires { r.start + r.size ≤ length bytes.now }
    ensures { result ≡ cannot_stand c bytes.now (entry_of r) }
{
    lacks_release(c, value_of(bytes, r)) | lacks_repetition(c, r.kind)
}

// The same test where there is no release character, by the places of the service characters.
fn cannot_stand_there(
    c: Characters,
    bytes: &[u8],
    size: usize,
    places: &[usize; service_places::BLOCKS],
    r: Record,
) -> bool
    requires { (c.release ≡ 32) × (r.start + r.size ≤ length bytes.now) × Noted (is_service c) bytes.now size places.now }
    ensures { result ≡ cannot_stand c bytes.now (entry_of r) }
{
    let start = r.start as usize;
    let end = start + r.size as usize;
    service_places::holds_between(c, bytes, size, places, start, end) | lacks_repetition(c, r.kind)
}

// The places of the service characters are stored first, so that a record costs a few steps however long its value is.
fn check_by_places(c: Characters, bytes: &[u8], table: &[u32]) -> Result<(), Refusal>
    requires { (c.release ≡ 32) × (well_listed bytes.now table.now ≡ true) }
    ensures { result ≡ outcome (first_record NeedsRelease (cannot_stand c bytes.now) 0 (entries table.now)) }
{
    let mut places = [0usize; service_places::BLOCKS];
    let size = service_places::store_places(c, bytes, &mut places);
    check_each(table, Fault::NeedsRelease, |r| {
        cannot_stand_there(c, bytes, size, &places, r)
    })
}

// The lengths of all records are above four times the number of bytes: many values overlap. Any answer
// is right, also where a sum wraps; this one says which way is the shorter. (`sum` of the library would have to be proved not to
// wrap.)
fn overlaps(bytes: &[u8], table: &[u32]) -> bool {
    let mut sum: u64 = 0;
    for numbers in table.chunks_exact(3) {
        sum = sum.wrapping_add(u64::from(numbers[2]));
    }
    bytes.len() < (sum / 4) as usize
}

// What refusal 16 answers, for a list that refusal 15 does not refuse.
pub fn check_release(c: Characters, bytes: &[u8], table: &[u32]) -> Result<(), Refusal>
    requires { well_listed bytes.now table.now ≡ true }
    ensures { result ≡ outcome (lowest (met NeedsRelease (numbers_where (cannot_stand c bytes.now) 0 (entries table.now)))) }
{
    if c.release == b' ' && overlaps(bytes, table) {
        return check_by_places(c, bytes, table);
    }
    check_each(table, Fault::NeedsRelease, |r| cannot_stand(c, bytes, r))
}
