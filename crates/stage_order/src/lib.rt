// Stage 9 (paper 01, "Order of segments"; change request 2026-03): the first segment that is not allowed
// where it stands, the first UNS that breaks the rule of sections, or the end before UNZ; or else the
// walk over the whole, with its counts. It promises what the walk of `stage_walks` answers. What
// trailers must say is left to others.
#![tactic(auto)]

ghost use Rattle.std.specs.Prelude.{◌≤◌, ◌≡◌, length};
ghost use Rattle.values.specs.Tokens.{tokens_at};
ghost use Rattle.scanner.specs.Scan.{segment_at};
ghost use Rattle.walk_laws.specs.Walking.{section_begun};
ghost use Rattle.stage_order.specs.Ordering.{section_from, completed, ordered_as};
ghost use Rattle.refusals.specs.Limits.{most_bytes};

use characters::Characters;
use elements::element_at;
use refusals::{Fault, Refusal};
use refusing::failed;
use scanner::segment_end;
use segments::{Kind, Section, Walk};
use tags::kind_at;
use trimmed_values::{is_alone, is_text};
use walk::{beginning, begun, fits, is_complete, is_marker, stepped};

// "or the end before UNZ"
fn complete(w: Walk, end: usize) -> Result<Walk, Refusal>
    ensures { result ≡ completed end w }
{
    if is_complete(w) {
        Ok(w)
    } else {
        failed(Fault::MisplacedSegment, end)
    }
}

// The section that the element which begins at `from` names: a single component `D` or `S`. (`Section::None` stays a section, here and in
// the walk: the definition `turn` of `control_elements` puts the three in order, and `walk_over` of `segments` takes each.)
fn section_named(s: &[u8], c: Characters, from: usize) -> Section
    ensures { result ≡ section_from (tokens_at c s.now from) }
{
    if !is_alone(s, c, from) {
        return Section::None;
    }
    if is_text(s, c, from, b"D") {
        return Section::Detail;
    }
    if is_text(s, c, from, b"S") {
        return Section::Summary;
    }
    Section::None
}

// The section that the segment at `at` begins, which only a UNS does: its first element names it.
pub fn section_at(s: &[u8], c: Characters, at: usize, kind: Kind) -> Section
    ensures { result ≡ section_begun kind (segment_at c s.now at) }
{
    if is_marker(kind) {
        section_named(s, c, element_at(s, c, at, 1))
    } else {
        Section::None
    }
}

// (Where a segment ends no `for` would know.)
pub fn check(s: &[u8], c: Characters, start: usize) -> Result<Walk, Refusal>
    requires { length s.now ≤ most_bytes }
    ensures { result ≡ ordered_as (length s.now) (tokens_at c s.now start) }
{
    let mut walk = beginning();
    let mut at = start;
    while at < s.len() {
        let kind = kind_at(s, c, at);
        let section = section_at(s, c, at, kind);
        if !fits(walk, kind, section) {
            return failed(Fault::MisplacedSegment, at);
        }
        walk = begun(stepped(walk, kind), section);
        at = segment_end(s, c, at);
    }
    complete(walk, s.len())
}
