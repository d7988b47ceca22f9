// Import (request 2026-12): an interchange from a text in columns and six service bytes, in a lent buffer. The values
// are never listed: passes over the text check it, look for what needs a release character, measure and store. Each
// goes from line to line with the position of the value before it, so that a pass takes as many steps as the text
// has bytes, whatever the text is. It promises, for any slices, the answer and every byte of the output that
// `columns` gives: what is refused leaves the whole output zero.
#![tactic(auto)]

ghost use Rattle.std.specs.Prelude.{◌≡◌, true, ◌+◌, ◌≤◌, ◌<◌, length, drop};
ghost use Rattle.std.proofs.lemmas.List.Edits.{sets};
ghost use Rattle.lists.specs.Lists.{begins};
ghost use Rattle.refusals.specs.Refusals.{outcome};
ghost use Rattle.refusals.specs.Limits.{most_bytes, most_spelled};
ghost use Rattle.columns.specs.Lines.{heading};
ghost use Rattle.columns.specs.Reading.{before, is_columns};
ghost use Rattle.columns.specs.Promises.{Imports};
ghost use Rattle.emission_laws.specs.Emission.{waiting};
ghost use Rattle.held_separators.specs.Putting.{Fits, Puts};
ghost use Rattle.value_list_text.specs.Composing.{record_tokens, composed_text, HasRoom, Composes};
ghost use Rattle.value_list_text.specs.Standing.{is_bare, first_bare};
ghost use Rattle.column_walk.specs.Walk.{first_place, Within, item_at, Sought, Found};
ghost use Rattle.column_walk.specs.Checking.{items_read, least_after};
ghost use Rattle.import_columns.specs.Importing.{ends_value, is_line_in, checked_by, TriesImport};

use characters::Characters;
use column_laws::Position;
use column_lines::{next_position, numbers_end};
use column_walk::Line;
use emission_laws::Measure;
use held_separators::{put_separator, put_value};
use refusals::{Fault, Refusal};
use refusing::failed;
use storing::{Measured, Sink, Stored};
use value_list_text::{first_measure, rank_of, short_length};

// ---- lines

// The place of the first tab, carriage return or line feed from a place on, or the end of the text. (It would be
// `from + s[from..].iter().position(..).unwrap_or(s.len() - from)`, which is no plainer.)
fn value_end(s: &[u8], from: usize) -> usize
    requires { from ≤ length s.now }
    ensures { result ≡ from + length (before ends_value (drop from s.now)) }
{
    for at in from..s.len() {
        let b = s[at];
        if (b == b'\t') | ((b == b'\r') | (b == b'\n')) {
            return at;
        }
    }
    s.len()
}

// The line of a value at a position: its numbers stand at the place, and its value goes on to the line feed.
fn line_of(s: &[u8], at: usize, position: Position, kind: u32) -> Option<Line>
    requires { at ≤ length s.now }
    ensures { Sought s.now at position kind result }
{
    let start = numbers_end(s, at, position)?;
    let end = value_end(s, start);
    if end == s.len() || s[end] != b'\n' {
        return None;
    }
    Some(Line {
        kind,
        position,
        start,
        end,
    })
}

// The line that begins at a place after a value at a position: the next component, repeat, element or segment. (`or_else` was
// tried, with `then_some` in the numbers: import took 3 to 6 in 100 more instructions.)
fn next_line(s: &[u8], at: usize, p: Position) -> Option<Line>
    requires { (first_place < at) × (at ≤ length s.now) × Within p at }
    ensures { Found s.now at p result }
{
    if let Some(component) = line_of(s, at, next_position(p, 2), 2) {
        return Some(component);
    }
    if let Some(repeat) = line_of(s, at, next_position(p, 3), 3) {
        return Some(repeat);
    }
    if let Some(element) = line_of(s, at, next_position(p, 1), 1) {
        return Some(element);
    }
    line_of(s, at, next_position(p, 0), 0)
}

// The line that begins at a place: the first one begins a segment. At the end of the text there is none.
fn line_at(s: &[u8], at: usize, p: Position) -> Option<Line>
    requires { (first_place ≤ at) × (at ≤ length s.now) × Within p at }
    ensures { Found s.now at p result }
{
    if at == column_lines::HEADING {
        return line_of(s, at, column_lines::origin(), 0);
    }
    next_line(s, at, p)
}

// ---- 24

// The least rank of the separator that may follow a line: after an empty value no lower one than in front of it,
// since trimming takes an empty end.
fn least_after(l: Line) -> u8
    ensures { result ≡ least_after l }
{
    if l.start == l.end { rank_of(l.kind) } else { 0 }
}

// How many lines the text has behind the heading, if export gives such a text. Where a line begins only the one
// before it tells, so that neither the place nor the count can be a `for`'s.
fn check_lines(s: &[u8]) -> Option<usize>
    requires { begins heading s.now ≡ true }
    ensures { result ≡ checked_by (is_columns s.now) (length (items_read s.now)) }
{
    let mut at = column_lines::HEADING;
    let mut p = column_lines::origin();
    let mut n = 0;
    let mut least: u8 = 0;
    while at < s.len() {
        let l = line_at(s, at, p)?;
        if rank_of(l.kind) < least {
            return None;
        }
        least = least_after(l);
        n += 1;
        at = l.end + 1;
        p = l.position;
    }
    (least == 0).then_some(n)
}

fn check_columns(s: &[u8]) -> Option<usize>
    ensures { result ≡ checked_by (is_columns s.now) (length (items_read s.now)) }
{
    if column_lines::begins_heading(s) {
        check_lines(s)
    } else {
        None
    }
}

// ---- 16

// The value of a line.
fn cannot_stand(s: &[u8], c: Characters, l: Line) -> bool
    requires { is_line_in s.now l }
    ensures { result ≡ is_bare c (item_at s.now l) }
{
    value_lists::lacks_release(c, &s[l.start..l.end]) | value_lists::lacks_repetition(c, l.kind)
}

// The value of the first line that cannot stand; the count stands beside the place, as in `check_lines`.
fn check_release(s: &[u8], c: Characters) -> Result<(), Refusal>
    requires { is_columns s.now ≡ true }
    ensures { result ≡ outcome (first_bare c 0 (items_read s.now)) }
{
    let mut at = column_lines::HEADING;
    let mut p = column_lines::origin();
    let mut n = 0;
    while let Some(l) = line_at(s, at, p) {
        if cannot_stand(s, c, l) {
            return failed(Fault::NeedsRelease, n);
        }
        n += 1;
        at = l.end + 1;
        p = l.position;
    }
    Ok(())
}

// ---- the text

// Puts a line where the text ends: its separator, and its value.
fn put_line<S: Sink>(output: &mut [u8], m: Measure, c: Characters, s: &[u8], l: Line) -> Measure
    requires { is_line_in s.now l × (m.total + waiting m.held ≤ most_spelled) × Fits S.room c output.old m (record_tokens (item_at s.now l)) }
    ensures { Puts S.holds c output.old m (record_tokens (item_at s.now l)) output.new result }
{
    let kept = put_separator::<S>(output, m, c, rank_of(l.kind));
    put_value::<S>(output, kept, c, &s[l.start..l.end])
}

// Puts the lines' values from the advice's last byte on, and returns the length of the text: the first ends the advice as
// it would end a segment. A text over 32,000 bytes is given up where that is seen. (The lines are gone over as in
// `check_lines`.)
fn put_lines<S: Sink>(output: &mut [u8], s: &[u8], c: Characters) -> Option<usize>
    requires { (is_columns s.now ≡ true) × (length (items_read s.now) ≤ most_bytes) × HasRoom S.room (composed_text c (items_read s.now)) output.old }
    ensures { Composes S.holds c (items_read s.now) output.old output.new result }
{
    let mut m = first_measure();
    let mut at = column_lines::HEADING;
    let mut p = column_lines::origin();
    while let Some(l) = line_at(s, at, p) {
        short_length(l.end - l.start)?;
        m = put_line::<S>(output, m, c, s, l);
        short_length(m.total)?;
        at = l.end + 1;
        p = l.position;
    }
    short_length(put_separator::<S>(output, m, c, 0).total)
}

// Stores the text at the front.
fn put_text(output: &mut [u8], s: &[u8], c: Characters)
    requires { (is_columns s.now ≡ true) × (length (items_read s.now) ≤ most_bytes) × (length (composed_text c (items_read s.now)) ≤ most_bytes) × (length (composed_text c (items_read s.now)) ≤ length output.old) }
    ensures { output.new ≡ sets output.old 0 (composed_text c (items_read s.now)) }
{
    storing::put_advice(output, c);
    put_lines::<Stored>(output, s, c);
}

// ---- stage by stage

// One stage after the other: 24, then 15, which refuses lines for their number alone, 2, 16, then 1 and 14, then 3 to 13 for
// the text that is stored.
fn try_import(service: &[u8], s: &[u8], output: &mut [u8]) -> Result<usize, Refusal>
    ensures { TriesImport service.now s.now output.old result output.new }
{
    let count = check_columns(s).ok_or(Refusal {
        fault: Fault::NoColumns,
        place: 0,
    })?;
    if refusals::MOST_BYTES < count {
        return failed(Fault::BadList, 0);
    }
    let c = write::check_service(service)?;
    check_release(s, c)?;
    let n = write::check_size(put_lines::<Measured>(&mut [], s, c), output.len())?;
    put_text(output, s, c);
    write::judged_length(&output[..n])
}

// Imports a text: any slices.
pub fn import_columns(service: &[u8], s: &[u8], output: &mut [u8]) -> Result<usize, Refusal>
    ensures { Imports service.now s.now output.old result output.new }
{
    let tried = try_import(service, s, output);
    write::cleared(output, tried)
}
