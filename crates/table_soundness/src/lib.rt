// Whether a table is sound (request 2026-08), for any bytes and any number of them. One pass over at most 999
// entries; what is kept of those before the present one is whether the last was a group's own, and
// where each open group ends. It promises the lowest entry at fault, as `message_table_laws` finds it.
#![tactic(auto)]

ghost use Rattle.std.specs.Prelude.{◌+◌, ◌≤◌, ◌≡◌, false, not, ◌||◌, []};
ghost use Rattle.lists.specs.Lists.{text, member};
ghost use Rattle.message_tables.specs.Entries.{whole_entries, entries_of};
ghost use Rattle.message_tables.specs.Soundness.{most_entries, is_table_tag, segment_fits, is_trigger};
ghost use Rattle.message_table_laws.specs.Scanning.{lower, scanned, size_fault, first_fault};
ghost use Rattle.table_rows.specs.Rows.{tag_bytes, entry_in};
ghost use Rattle.table_soundness.specs.Fitting.{asked, stated, group_fits_within, fits_within, rooms_in, Nested, found_at};

use refusals::{Fault, Refusal};
use refusing::failed;
use table_rows::{ROW_BYTES, Row, Tag, is_group, is_mandatory, row_at};

// "A table has 0 to 999 whole entries"; also the most repeats.
const MOST: usize = 999;

// "at most eight deep"
const MOST_DEPTH: usize = 8;

// "its segment tags obey rule 6, and UNS is the only one beginning `UN`"
fn is_table_tag(tag: Tag) -> bool
    ensures { result ≡ is_table_tag (tag_bytes tag) }
{
    tags::is_tag(tag.first, tag.second, tag.third)
        && (tag.first != b'U' || tag.second != b'N' || tag.third == b'S')
}

// "a 16-bit number of entries under it at any depth (1 or more for a group, else 0)"
fn segment_fits(row: Row) -> bool
    ensures { result ≡ segment_fits (entry_in row) }
{
    row.under == 0 && is_table_tag(row.tag)
}

// A group that stands in so many others, of the nearest of which so many entries are left.
fn group_fits(under: usize, depth: usize, room: usize) -> bool
    ensures { result ≡ group_fits_within depth room under }
{
    1 <= under && depth < MOST_DEPTH && under <= room
}

// "`M` mandatory or `C` conditional"
fn is_status(status: u8) -> bool
    ensures { result ≡ member status (text "MC") }
{
    matches!(status, b'M' | b'C')
}

// "a 16-bit largest number of repeats (1 to 999)"
fn is_stated(row: Row) -> bool
    ensures { result ≡ stated (entry_in row) }
{
    is_status(row.status) && 1 <= row.repeats && row.repeats <= MOST
}

// "a group's first entry is its trigger, a segment, mandatory and once"
fn is_trigger(row: Row) -> bool
    ensures { result ≡ is_trigger (entry_in row) }
{
    !is_group(row) && is_mandatory(row) && row.repeats == 1
}

// The same, asked only after a group's own entry.
fn triggers(row: Row, after: bool) -> bool
    ensures { result ≡ (not after || is_trigger (entry_in row)) }
{
    !after || is_trigger(row)
}

// What is asked of an entry.
fn fits(row: Row, after: bool, depth: usize, room: usize) -> bool
    ensures { result ≡ fits_within after depth room (entry_in row) }
{
    is_stated(row)
        && triggers(row, after)
        && if is_group(row) {
            group_fits(row.under, depth, room)
        } else {
            segment_fits(row)
        }
}

// How many groups are still open, of so many, when the entry before `next` is passed.
fn still_open(ends: &[usize; 10], depth: usize, next: usize) -> usize
    requires { (depth ≤ 9) × Nested next depth ends.now }
    ensures rooms { lower (rooms_in next depth ends.now) ≡ rooms_in (next + 1) result ends.now }
    ensures nested { Nested (next + 1) result ends.now }
    ensures fewer { result ≤ depth }
{
    for count in (1..=depth).rev() {
        if next < ends[count] {
            return count;
        }
    }
    0
}

// The first of so many entries that does not fit. A segment is passed like a group that holds nothing. (Where the open
// groups end stands in an array with the depth beside it, since memory is fixed.)
fn scan(table: &[u8], whole: usize, most: usize) -> Result<(), Refusal>
    requires { (whole ≡ whole_entries table.now) × (most ≡ asked whole) }
    ensures { result ≡ found_at (scanned most_entries 0 false [] (entries_of table.now)) }
{
    let mut ends = [0usize; 10];
    ends[0] = whole;
    let mut depth = 0;
    let mut after = false;
    for number in 0..most {
        let row = row_at(table, number);
        let next = number + 1;
        if !fits(row, after, depth, ends[depth] - next) {
            return failed(Fault::UnsoundTable, number);
        }
        after = is_group(row);
        ends[depth + 1] = next + row.under;
        depth = still_open(&ends, depth + 1, next);
    }
    Ok(())
}

// How many entries are asked one by one.
fn entries_asked(whole: usize) -> usize
    ensures { result ≡ asked whole }
{
    whole.min(MOST)
}

// "where there are more than 999, entry 999 is at fault too"; a last entry that is not whole is at fault.
fn check_size(table: &[u8]) -> Result<(), Refusal>
    ensures { result ≡ found_at (size_fault table.now) }
{
    let whole = table.len() / ROW_BYTES;
    if MOST < whole {
        failed(Fault::UnsoundTable, MOST)
    } else if table.len() % ROW_BYTES == 0 {
        Ok(())
    } else {
        failed(Fault::UnsoundTable, whole)
    }
}

// 21: the lowest entry at fault.
pub fn check(table: &[u8]) -> Result<(), Refusal>
    ensures { result ≡ found_at (first_fault table.now) }
{
    let whole = table.len() / ROW_BYTES;
    scan(table, whole, entries_asked(whole))?;
    check_size(table)
}
