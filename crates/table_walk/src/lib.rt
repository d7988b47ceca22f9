// The walk of a message's segments through a sound table (request 2026-08): "Each entry takes as many segments
// or group repeats as it can before the next entry has its turn; wherever its trigger stands, a group
// is gone through the same way, one level deeper." A level calls the repeats of its entries, and a
// repeat the level below, so that the stack is bounded by the depth of the groups. It promises the walk
// of `message_structures`. Which messages are walked is left to `stage_structure`.
#![tactic(auto)]

ghost use Rattle.std.specs.Prelude.{◌+◌, ◌≤◌, ◌≡◌, not, ◌&&◌, drop};
ghost use Rattle.lists.specs.Lists.{same};
ghost use Rattle.segments.specs.Tags.{tag_of};
ghost use Rattle.message_tables.specs.Entries.{whole_entries, entries_of};
ghost use Rattle.message_tables.specs.Structure.{structure_of, lead_of, levels};
ghost use Rattle.message_table_laws.specs.Nesting.{Levels};
ghost use Rattle.message_structures.specs.Walking.{repeated, walk};
ghost use Rattle.table_rows.specs.Rows.{tag_bytes, entry_in};
ghost use Rattle.table_walk.specs.Walking.{tag_here, Tagged, segments_at, Marked, told, standing, within, entry_at, Lying, Parted};

use characters::Characters;
use scanner::segment_end;
use table_rows::{ROW_BYTES, Row, Tag, is_group, is_mandatory, no_tag, row_at, same_tag};
use tags::word_at;

// The outermost level, and below it those of groups "at most eight deep".
const LEVELS: usize = 9;

// Where the walk stands: the place of the segment that comes next, and its tag, zeros where it has none
// of three bytes. (Zeros, and no `Option`: a lead is never zeros, so that one comparison of tags tells.)
#[derive(Clone, Copy)]
pub struct Next {
    pub at: usize,
    pub tag: Tag,
}

// What the walk goes through: the bytes and characters of a message, and the table.
#[derive(Clone, Copy)]
struct Walk<'a> {
    s: &'a [u8],
    c: Characters,
    table: &'a [u8],
}

// An entry, for the walk: whether it is mandatory, its most repeats, the tag with which each of them
// begins, and the entries that a repeat holds behind that, from a number up to another. (`mandatory` is read off the
// entry's byte once; it chooses no other way through the code.)
#[derive(Clone, Copy)]
pub struct Part {
    pub mandatory: bool,
    pub most: usize,
    pub lead: Tag,
    pub from: usize,
    pub end: usize,
}

fn tag_at(s: &[u8], c: Characters, at: usize) -> Tag
    ensures { tag_bytes result ≡ tag_here (segments_at c s.now at) }
{
    let word = word_at(s, c, at);
    if word.size == 3 {
        Tag {
            first: word.second,
            second: word.third,
            third: word.fourth,
        }
    } else {
        no_tag()
    }
}

// The walk stands before the segment at a place.
fn standing_at(s: &[u8], c: Characters, at: usize) -> Next
    ensures at { result.at ≡ at }
    ensures marked { Marked c s.now result }
{
    let tag = tag_at(s, c, at);
    Next { at, tag }
}

// One segment on.
fn stepped(s: &[u8], c: Characters, next: Next) -> Next
    ensures left { segments_at c s.now result.at ≡ drop 1 (segments_at c s.now next.at) }
    ensures marked { Marked c s.now result }
    ensures later { next.at ≤ result.at }
{
    standing_at(s, c, segment_end(s, c, next.at))
}

// The tag with which each repeat of an entry begins: its own, or that of a group's trigger.
fn lead_of(table: &[u8], number: usize, row: Row) -> Tag
    requires { (entry_in row ≡ entry_at table.now number) × Lying table.now number }
    ensures { tag_bytes result ≡ lead_of (entry_at table.now number) (drop (number + 1) (entries_of table.now)) }
{
    if is_group(row) {
        row_at(table, number + 1).tag
    } else {
        row.tag
    }
}

// The entry of a number.
fn part_at(table: &[u8], number: usize) -> Part
    requires { Lying table.now number }
    ensures { Parted table.now number result }
{
    let row = row_at(table, number);
    let lead = lead_of(table, number, row);
    Part {
        mandatory: is_mandatory(row),
        most: row.repeats,
        lead,
        from: number + 2,
        end: number + 1 + row.under,
    }
}

// "a mandatory entry that can't be met"
fn is_missed(part: Part, next: Next) -> bool
    ensures { result ≡ (part.mandatory && not (same (tag_bytes next.tag) (tag_bytes part.lead))) }
{
    part.mandatory && !same_tag(next.tag, part.lead)
}

// The repeats of an entry, as many as there are, up to its most; what each holds is one level deeper. Like the walk of a
// level, it says where the walk stands then, or, as an error, where it stopped.
#[cycle(level_repeats)]
fn repeats(w: &Walk, part: Part, depth: usize, next: Next) -> Result<Next, Next>
    requires { (part.end ≤ whole_entries w.now.table.now) × Levels depth (within w.now.table.now part.from part.end) × Tagged (tag_bytes part.lead) × Marked w.now.c w.now.s.now next }
    ensures is { told w.now.c w.now.s.now result ≡ repeated tag_of (walk tag_of (levels depth (within w.now.table.now part.from part.end))) (tag_bytes part.lead) part.most (segments_at w.now.c w.now.s.now next.at) }
    ensures marked { Marked w.now.c w.now.s.now (standing result) }
    ensures later { next.at ≤ (standing result).at }
{
    let mut here = next;
    for _ in 0..part.most {
        if !same_tag(here.tag, part.lead) {
            return Ok(here);
        }
        here = level(w, part.from, part.end, depth, stepped(w.s, w.c, here))?;
    }
    Ok(here)
}

// The entries of a level, from a number up to another, with so many levels from here on.
#[cycle(level_repeats)]
fn level(w: &Walk, from: usize, end: usize, depth: usize, next: Next) -> Result<Next, Next>
    requires { (end ≤ whole_entries w.now.table.now) × Levels depth (within w.now.table.now from end) × Marked w.now.c w.now.s.now next }
    ensures is { told w.now.c w.now.s.now result ≡ walk tag_of (levels depth (within w.now.table.now from end)) (segments_at w.now.c w.now.s.now next.at) }
    ensures marked { Marked w.now.c w.now.s.now (standing result) }
    ensures later { next.at ≤ (standing result).at }
{
    if depth == 0 {
        return Ok(next);
    }
    let mut here = next;
    let mut number = from;
    // (No `for`: how far the next entry of a level stands behind this one only this one tells.)
    while number < end {
        let part = part_at(w.table, number);
        if is_missed(part, here) {
            return Err(here);
        }
        here = repeats(w, part, depth - 1, here)?;
        // The next entry of this level stands behind all that is under this one.
        number = part.end;
    }
    Ok(here)
}

// The walk over all that stands from a place on, through a table whose groups lie in one another: where it stands
// behind all entries, or, as an error, where it stopped.
pub fn through_table(s: &[u8], c: Characters, table: &[u8], at: usize) -> Result<Next, Next>
    requires { Levels 9 (entries_of table.now) }
    ensures is { told c s.now result ≡ walk tag_of (structure_of table.now) (segments_at c s.now at) }
    ensures later { at ≤ (standing result).at }
{
    level(
        &Walk { s, c, table },
        0,
        table.len() / ROW_BYTES,
        LEVELS,
        standing_at(s, c, at),
    )
}
