// Stages (4 5 6), 9 and (10 11 12) in one walk over the segments, which reads each tag once and looks for
// each segment's end once. It says only that none of them finds anything, and then hands on the walk
// with its counts. Where one of them finds something, or may, it says no more than that: which of them
// it is, and where, is left to the stages.
#![tactic(auto)]

ghost use Rattle.std.specs.Prelude.{◌≤◌, ◌<◌, ◌≡◌, true, length};
ghost use Rattle.refusals.specs.Limits.{most_bytes};
ghost use Rattle.walk_laws.specs.Walking.{Within};
ghost use Rattle.ordinary_runs.specs.Runs.{quiet};
ghost use Rattle.segments.specs.declared.Kind.TheVariants.{User};
ghost use Rattle.ordinary_controls.specs.Standing.{Controls};
ghost use Rattle.clean_walk.specs.Clean.{SpellsTag, NamedAs, Tells, user_step, Steps, Cleans};

use characters::Characters;
use control_elements::Positions;
use control_positions::positions_of;
use elements::element_at;
use ordinary_controls::control_of;
use ordinary_runs::{is_ordinary, is_quiet};
use scanner::{Scanned, releasing};
use segment_ends::segment_ended;
use segments::{Kind, Section, Walk};
use stage_control::{Headers, header_of, passed_header, segment_control, true_count};
use stage_order::section_at;
use tags::{kind_at, kind_named, tag_holds};
use walk::{beginning, begun, fits, is_complete, stepped};

// The tag of a segment that keeps the rule for tags, and is of this kind; `spelled` says that the tag's
// four bytes are read as they stand. (It picks no step of a caller's: where the bytes as they stand do not suffice, `control_at` reads on
// token by token all the same.)
#[derive(Clone, Copy)]
struct Tag {
    kind: Kind,
    spelled: bool,
}

// Three letters or digits stand at a place, and after them the element separator or the terminator:
// four bytes that are read as they stand, where `calm` says that no service character is a letter or a
// digit. (It goes with the input and its characters, here and below: one struct of the three would be taken apart in each contract, as
// `scanner` says of two of them.)
fn spells_tag(s: &[u8], c: Characters, calm: bool, at: usize) -> bool
    requires { (at < length s.now) × (calm ≡ quiet c) }
    ensures { result ≡ true → SpellsTag c s.now at }
{
    if s.len() - at < 4 {
        return false;
    }
    let second = at + 1;
    let third = second + 1;
    let end = third + 1;
    let named = is_ordinary(s[at]) & is_ordinary(s[second]) & is_ordinary(s[third]);
    let ended = (s[end] == c.terminator) | (s[end] == c.element);
    calm & named & ended
}

// The tag of the segment that begins at a place, token by token; none where it may not keep the rule.
fn tag_read(s: &[u8], c: Characters, at: usize) -> Option<Tag>
    ensures { Tells c s.now at result }
{
    if !tag_holds(s, c, at) {
        return None;
    }
    Some(Tag {
        kind: kind_at(s, c, at),
        spelled: false,
    })
}

// The same by its four bytes, where they suffice: those of a service segment with a reference.
fn tag_at(s: &[u8], c: Characters, calm: bool, at: usize) -> Option<Tag>
    requires { (at < length s.now) × (calm ≡ quiet c) }
    ensures { Tells c s.now at result }
{
    if !spells_tag(s, c, calm, at) {
        return tag_read(s, c, at);
    }
    let second = at + 1;
    let kind = kind_named(s[at], s[second], s[second + 1]);
    if positions_of(kind).reference == 0 {
        return tag_read(s, c, at);
    }
    Some(Tag {
        kind,
        spelled: true,
    })
}

// Where it says yes, the tag keeps the rule, and it is a user segment's: it is told by its first two bytes.
fn is_user(s: &[u8], c: Characters, calm: bool, at: usize) -> bool
    requires { (at < length s.now) × (calm ≡ quiet c) }
    ensures { result ≡ true → NamedAs c s.now at User }
{
    if !spells_tag(s, c, calm, at) {
        return false;
    }
    let second = at + 1;
    (s[at] != b'U') | (s[second] != b'N')
}

// What is kept of the segments that stages 9 and (10 11 12) passed.
#[derive(Clone, Copy)]
struct Kept {
    walk: Walk,
    headers: Headers,
}

// Stage (10 11 12) passes the segment, whose reference begins at this place, token by token; or it may not.
fn control_read(
    s: &[u8],
    c: Characters,
    at: usize,
    p: Positions,
    header: usize,
    count: u32,
) -> Option<usize>
    ensures { Controls c s.now at p header count result }
{
    let reference = element_at(s, c, at, p.reference);
    segment_control(s, c, at, p, reference, header, count).ok()?;
    Some(reference)
}

// The same by the bytes as they stand, where they suffice.
fn control_at(
    s: &[u8],
    c: Characters,
    spelled: bool,
    at: usize,
    p: Positions,
    header: usize,
    count: u32,
) -> Option<usize>
    requires { spelled ≡ true → SpellsTag c s.now at }
    ensures { Controls c s.now at p header count result }
{
    if !spelled {
        return control_read(s, c, at, p, header, count);
    }
    control_of(s, c, at, p, header, count).or_else(|| control_read(s, c, at, p, header, count))
}

// What is kept after a segment with this tag; none where one of the stages may not pass it.
fn named_step(s: &[u8], c: Characters, at: usize, kept: Kept, tag: Tag) -> Option<Kept>
    requires { Within most_bytes kept.walk × NamedAs c s.now at tag.kind × (tag.spelled ≡ true → SpellsTag c s.now at) }
    ensures { Steps c s.now at kept.walk kept.headers result }
{
    let Tag { kind, spelled } = tag;
    let Kept { walk, headers } = kept;
    let section = section_at(s, c, at, kind);
    if !fits(walk, kind, section) {
        return None;
    }
    let p = positions_of(kind);
    let header = header_of(headers, kind);
    let reference = control_at(s, c, spelled, at, p, header, true_count(walk, kind))?;
    Some(Kept {
        walk: begun(stepped(walk, kind), section),
        headers: passed_header(headers, kind, reference),
    })
}

// The same of a user segment, which has no reference and begins no section.
#[tactic(auto, unfolding(crate::specs::Clean::user_step))]
fn user_step(kept: Kept) -> Option<Kept>
    requires { Within most_bytes kept.walk }
    ensures { result ≡ user_step kept }
{
    if !fits(kept.walk, Kind::User, Section::None) {
        return None;
    }
    Some(Kept {
        walk: stepped(kept.walk, Kind::User),
        ..kept
    })
}

// Most segments are user segments, so that these are asked for first.
fn step_at(s: &[u8], c: Characters, calm: bool, at: usize, kept: Kept) -> Option<Kept>
    requires { (at < length s.now) × (calm ≡ quiet c) × Within most_bytes kept.walk }
    ensures { Steps c s.now at kept.walk kept.headers result }
{
    if is_user(s, c, calm, at) {
        return user_step(kept);
    }
    named_step(s, c, at, kept, tag_at(s, c, calm, at)?)
}

// The walk over all segments from a place on, where nothing is found of them; none, where something may be. (Where a segment ends no `for`
// would know.)
pub fn clean_walk(s: &[u8], c: Characters, start: usize) -> Option<Walk>
    requires { length s.now ≤ most_bytes }
    ensures { Cleans c s.now start result }
{
    let calm = is_quiet(c);
    let release = releasing(c);
    let mut kept = Kept {
        walk: beginning(),
        headers: Headers {
            unb: s.len(),
            ung: s.len(),
            unh: s.len(),
        },
    };
    let mut at = start;
    while at < s.len() {
        let Scanned::Ended { next } = segment_ended(s, c, release, at) else {
            return None;
        };
        kept = step_at(s, c, calm, at, kept)?;
        at = next;
    }
    is_complete(kept.walk).then_some(kept.walk)
}
