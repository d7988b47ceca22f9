// Stage (10 11 12) (paper 01, "Control elements"): the first segment whose reference or count is not
// well-formed, or a trailer with another reference than its header's or with a wrong count. It promises
// what the walk of `stage_walks` answers. The order of the segments is left to `stage_order`.
#![tactic(auto)]

ghost use Rattle.std.specs.Prelude.{◌≤◌, ◌≡◌, length};
ghost use Rattle.refusals.specs.Refusals.{outcome};
ghost use Rattle.values.specs.Tokens.{tokens_at};
ghost use Rattle.stage_walks.specs.Walks.{controlled};
ghost use Rattle.walk_laws.specs.Walking.{Within};
ghost use Rattle.stage_control.specs.Controlling.{header_kept, headers_after, groups_or_messages, count_due, trailer_at, controlled_by};
ghost use Rattle.refusals.specs.Limits.{most_bytes};

use characters::Characters;
use control_elements::Positions;
use control_fields::{field_at, is_count, is_reference};
use control_positions::positions_of;
use elements::element_at;
use refusals::{Fault, Refusal};
use refusing::failed;
use scanner::segment_end;
use segments::{Kind, Walk};
use tags::kind_at;
use trimmed_values::same_value;
use walk::{beginning, stepped};

// Where the references of the headers that passed last begin; the input's length before the first. (It stays for none: the value that begins
// there is empty, so that a trailer's reference differs from it without an `Option` being asked.)
#[derive(Clone, Copy)]
pub struct Headers {
    pub unb: usize,
    pub ung: usize,
    pub unh: usize,
}

// The header that a trailer of this kind closes. (0 where the kind is no trailer's, here and in `true_count`, as `header_kept` and `count_due`
// say it: nobody looks at it then.)
pub fn header_of(h: Headers, kind: Kind) -> usize
    ensures { result ≡ header_kept h kind }
{
    match kind {
        Kind::Unt => h.unh,
        Kind::Une => h.ung,
        Kind::Unz => h.unb,
        _ => 0,
    }
}

// One segment more, whose reference begins at this place.
pub fn passed_header(h: Headers, kind: Kind, reference: usize) -> Headers
    ensures { result ≡ headers_after h kind reference }
{
    match kind {
        Kind::Unb => Headers {
            unb: reference,
            ..h
        },
        Kind::Ung => Headers {
            ung: reference,
            ..h
        },
        Kind::Unh => Headers {
            unh: reference,
            ..h
        },
        _ => h,
    }
}

// "the groups, or the messages where there are no groups"
fn groups_or_messages(w: Walk) -> u32
    ensures { result ≡ groups_or_messages w }
{
    if w.groups.0 == 0 {
        w.messages.0
    } else {
        w.groups.0
    }
}

// The count that a trailer of this kind has to give.
pub fn true_count(w: Walk, kind: Kind) -> u32
    requires { Within most_bytes w }
    ensures { result ≡ count_due w kind }
{
    match kind {
        Kind::Unt => w.in_message.0 + 1,
        Kind::Une => w.in_group.0,
        Kind::Unz => groups_or_messages(w),
        _ => 0,
    }
}

// A trailer, whose reference is one. Its count begins at `counted`, its header's reference at `header`.
fn trailer_control(
    s: &[u8],
    c: Characters,
    at: usize,
    reference: usize,
    counted: usize,
    header: usize,
    count: u32,
) -> Result<(), Refusal>
    ensures { result ≡ trailer_at c s.now at reference counted header count }
{
    let field = field_at(s, c, counted);
    if !is_count(field) {
        return failed(Fault::BadControl, at);
    }
    if !same_value(s, c, reference, header) {
        return failed(Fault::ReferenceDiffers, at);
    }
    if field.number != count {
        return failed(Fault::CountWrong, at);
    }
    Ok(())
}

// One segment. A segment that has a count is a trailer. (What it is held against stays three parameters, here and in `ordinary_controls` and
// `clean_walk`: `controlled_by` and `Controls` are told so of each, and a struct would be taken apart again at once.)
pub fn segment_control(
    s: &[u8],
    c: Characters,
    at: usize,
    p: Positions,
    reference: usize,
    header: usize,
    count: u32,
) -> Result<(), Refusal>
    ensures { result ≡ controlled_by c s.now at p reference header count }
{
    if p.reference == 0 {
        return Ok(());
    }
    if !is_reference(field_at(s, c, reference)) {
        return failed(Fault::BadControl, at);
    }
    if p.count == 0 {
        return Ok(());
    }
    let counted = element_at(s, c, at, p.count);
    trailer_control(s, c, at, reference, counted, header, count)
}

// (Where a segment ends no `for` would know.)
pub fn check(s: &[u8], c: Characters, start: usize) -> Result<(), Refusal>
    requires { length s.now ≤ most_bytes }
    ensures { result ≡ outcome (controlled (tokens_at c s.now start)) }
{
    let mut walk = beginning();
    let mut headers = Headers {
        unb: s.len(),
        ung: s.len(),
        unh: s.len(),
    };
    let mut at = start;
    while at < s.len() {
        let kind = kind_at(s, c, at);
        let p = positions_of(kind);
        let reference = element_at(s, c, at, p.reference);
        let next = segment_end(s, c, at);
        let header = header_of(headers, kind);
        segment_control(s, c, at, p, reference, header, true_count(walk, kind))?;
        walk = stepped(walk, kind);
        headers = passed_header(headers, kind, reference);
        at = next;
    }
    Ok(())
}
