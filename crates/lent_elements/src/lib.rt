// A value list that is lent as one element (request 2026-11): whether it is one, and its records as they stand in the list
// put together, where the first begins an element: their bytes, which a sink stores in a lent buffer or measures alone.
// Each record goes through the steps of `value_list_text`. It promises the definition of a bad list in
// `acknowledgements`, and the bytes of these records and the measure past them.
#![tactic(auto)]

ghost use Rattle.std.specs.Prelude.{◌≡◌, true, ◌+◌, ◌≤◌, leb, length, drop};
ghost use Rattle.lists.specs.Lists.{any};
ghost use Rattle.emission_laws.specs.Emission.{waiting};
ghost use Rattle.operations.specs.ValueList.{entries};
ghost use Rattle.value_lists.specs.Records.{well_listed};
ghost use Rattle.value_list_text.specs.Advancing.{records_tokens};
ghost use Rattle.refusals.specs.Limits.{most_bytes, most_numbers};
ghost use Rattle.acknowledgements.specs.Lent.{is_bad_lent};
ghost use Rattle.lent_elements.specs.Leading.{list_in, lent_items, LeadsTable, Reaches, Advances};

use characters::Characters;
use emission_laws::Measure;
use storing::Sink;
use value_list_text::put_record;
use value_lists::{Record, record_at};

// A value list as it is lent: the bytes of its values, and its table.
#[derive(Clone, Copy)]
pub struct LentElement<'a> {
    pub bytes: &'a [u8],
    pub table: &'a [u32],
}

// ---- whether it is one element

// A record after the first begins a segment or an element.
fn begins_again(table: &[u32]) -> bool
    requires { 3 ≤ length table.now }
    ensures { result ≡ any (λ e. leb e.kind 1) (drop 1 (entries table.now)) }
{
    for numbers in table[3..].chunks_exact(3) {
        if record_at(numbers, 0).kind <= 1 {
            return true;
        }
    }
    false
}

// The list is empty, or refusal 15 refuses it, or it is more than one element.
pub fn is_bad(list: LentElement) -> bool
    ensures { result ≡ is_bad_lent (list_in list.entry) }
{
    value_lists::check_list(list.bytes, list.table).is_err()
        || list.table.len() < 3
        || begins_again(list.table)
}

// ---- its records

// The first record, which begins an element.
fn first_of(table: &[u32]) -> Record
    requires { 3 ≤ length table.now }
    ensures { LeadsTable table.now result }
{
    Record {
        kind: 1,
        ..record_at(table, 0)
    }
}

// Puts the records where the text ends; where it is over 32,000 bytes, which is seen before all are put, some may be left.
pub fn put_list<S: Sink>(buffer: &mut [u8], m: Measure, c: Characters, list: LentElement) -> Measure
    requires { (well_listed list.bytes.now list.table.now ≡ true) × (3 ≤ length list.table.now) × (length list.table.now ≤ most_numbers) × (m.total ≤ most_bytes) × (waiting m.held + length (lent_items (list_in list)) ≤ most_bytes) × Reaches S.room c buffer.old m (records_tokens (lent_items (list_in list))) }
    ensures { Advances S.holds c buffer.old m (lent_items (list_in list.entry)) buffer.new result }
{
    let mut n = put_record::<S>(buffer, m, c, list.bytes, first_of(list.table));
    for numbers in list.table[3..].chunks_exact(3) {
        if refusals::MOST_BYTES < n.total {
            return n;
        }
        n = put_record::<S>(buffer, n, c, list.bytes, record_at(numbers, 0));
    }
    n
}
