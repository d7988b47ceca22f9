// How far the value list of a body goes, token by token (paper 01, "Operations": Read): the values listed so
// far and the open one, and the records that are let out before a byte of a value, which a sink takes. It
// promises what `specs/Tally.antt` gives for the step; that the values of the tokens are those of the body's
// contents is proved in proofs/Contents.antt.
#![tactic(auto)]

ghost use Rattle.std.specs.Prelude.{◌≡◌, ◌+◌, ◌*◌, ◌≤◌, length};
ghost use Rattle.std.proofs.lemmas.List.Edits.{sets};
ghost use Rattle.read_counts.specs.Marks.{numbers_out};
ghost use Rattle.read_counts.specs.Tally.{entry_of, fresh, values, end, marks_out, after_marks, past_held, grown, longer, after_byte, byte_numbers, after_separator};
ghost use Rattle.refusals.specs.Limits.{most_bytes};

use emission_laws::Held;
use held_separators::{after_separator, nothing_held};
use plain_runs::RunSink;
use storing::{Measured, Stored};

// What is listed so far: so many records, the record of the value that is open, and what is held
// back after it.
#[derive(Clone, Copy)]
pub struct Listing {
    pub records: usize,
    pub kind: u32,
    pub start: usize,
    pub size: usize,
    pub held: Held,
}

// How many bytes, and how many numbers of the table. (`answers` has the same two figures, for what Read answers: it is none of
// the crates that this one stands on.)
#[derive(Clone, Copy)]
pub struct Tally {
    pub bytes: usize,
    pub numbers: usize,
}

// The first value is open, and nothing is listed.
pub fn start_of_list() -> Listing
    ensures { result ≡ fresh }
{
    Listing {
        records: 0,
        kind: 0,
        start: 0,
        size: 0,
        held: nothing_held(),
    }
}

// After so many separators of one kind that are let out: each ends a value and begins the next.
fn after_marks(l: Listing, kind: u32, count: usize) -> Listing
    requires { (l.records + count ≤ most_bytes) × (end l ≤ most_bytes) }
    ensures { result ≡ after_marks kind count l }
{
    if count == 0 {
        return l;
    }
    Listing {
        records: l.records + count,
        kind,
        start: l.start + l.size,
        size: 0,
        ..l
    }
}

// With one byte more in the open value.
pub fn with_one_more(l: Listing) -> Listing
    requires { l.size ≤ most_bytes }
    ensures { result ≡ grown l }
{
    Listing {
        size: l.size + 1,
        held: nothing_held(),
        ..l
    }
}

// With so many bytes more in the open value, of which some are there.
pub fn with_more(l: Listing, count: usize) -> Listing
    requires { l.size + count ≤ most_bytes }
    ensures { result ≡ longer count l }
{
    Listing {
        size: l.size + count,
        ..l
    }
}

// A terminator ends the open value, and another separator is held back.
pub fn with_separator(l: Listing, rank: u8) -> Listing
    requires { (values l ≤ most_bytes) × (end l ≤ most_bytes) }
    ensures { result ≡ after_separator l rank }
{
    let held = after_separator(l.held, rank);
    if rank == 0 {
        return Listing {
            records: l.records + 1,
            kind: 0,
            start: l.start + l.size,
            size: 0,
            held,
        };
    }
    Listing { held, ..l }
}

// ---- records

// Where a value list goes: its records go into a table.
pub trait ListSink: RunSink {
    // Puts the record of the value that is open.
    fn put_record(table: &mut [u32], l: Listing)
        requires { (l.records * 3 + 3 ≤ Self.room table.old) × (l.records ≤ most_bytes) × (end l ≤ most_bytes) }
        ensures { table.new ≡ Self.holds table.old (l.records * 3) (numbers_out (entry_of l)) };

    // Puts a record for each of `count` separators of one kind that are let out.
    fn put_marks(table: &mut [u32], l: Listing, kind: u32, count: usize) -> Listing
        requires { ((l.records + count) * 3 ≤ Self.room table.old) × (l.records + count ≤ most_bytes) × (end l ≤ most_bytes) }
        ensures { (table.new ≡ Self.holds table.old (l.records * 3) (marks_out kind count (entry_of l))) × (result ≡ after_marks kind count l) };
}

impl ListSink for Stored {
    fn put_record(table: &mut [u32], l: Listing) {
        put_record(table, l);
    }

    fn put_marks(table: &mut [u32], l: Listing, kind: u32, count: usize) -> Listing {
        put_marks(table, l, kind, count)
    }
}

// All marks of a kind are counted at once.
impl ListSink for Measured {
    fn put_record(_table: &mut [u32], _l: Listing) {}

    fn put_marks(_table: &mut [u32], l: Listing, kind: u32, count: usize) -> Listing {
        after_marks(l, kind, count)
    }
}

// (`as` loses nothing, since no figure is above 32,000: `try_from` would name an error that cannot come.)
fn put_record(table: &mut [u32], l: Listing)
    requires { (l.records * 3 + 3 ≤ length table.old) × (l.records ≤ most_bytes) × (end l ≤ most_bytes) }
    ensures { table.new ≡ sets table.old (l.records * 3) (numbers_out (entry_of l)) }
{
    let at = l.records * 3;
    table[at] = l.kind;
    table[at + 1] = l.start as u32;
    table[at + 2] = l.size as u32;
}

fn put_marks(table: &mut [u32], l: Listing, kind: u32, count: usize) -> Listing
    requires { ((l.records + count) * 3 ≤ length table.old) × (l.records + count ≤ most_bytes) × (end l ≤ most_bytes) }
    ensures { (table.new ≡ sets table.old (l.records * 3) (marks_out kind count (entry_of l))) × (result ≡ after_marks kind count l) }
{
    let mut m = l;
    for _ in 0..count {
        put_record(table, m);
        m = after_marks(m, kind, 1);
    }
    m
}

// Puts the records of what is held back, which is let out.
pub fn put_held<S: ListSink>(table: &mut [u32], l: Listing) -> Listing
    requires { (values l * 3 ≤ S.room table.old) × (values l ≤ most_bytes) × (end l ≤ most_bytes) }
    ensures { (table.new ≡ S.holds table.old (l.records * 3) (byte_numbers l)) × (result ≡ past_held l) }
{
    let h = l.held;
    if h.elements + h.repeats + h.components == 0 {
        return l;
    }
    let elements = S::put_marks(table, l, 1, h.elements);
    let repeats = S::put_marks(table, elements, 3, h.repeats);
    S::put_marks(table, repeats, 2, h.components)
}

// Past a byte of a value, which lets out what is held back.
pub fn with_byte(l: Listing) -> Listing
    requires { (values l ≤ most_bytes) × (end l ≤ most_bytes) }
    ensures { result ≡ after_byte l }
{
    with_one_more(put_held::<Measured>(&mut [], l))
}
