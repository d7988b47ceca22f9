// One step of the walk over the segments (paper 01, "Order of segments"; change request 2026-03): the
// walk before the first segment, whether a segment fits where the walk stands, by its kind and the
// section that it begins, the walk after it, and whether the walk has come to the end of an interchange.
// Each answers from the walk alone; that this is the answer of `segments` and `control_elements` for all
// that passed is said in `walk_laws`. Going through the segments of an input is left to `stage_order`.
#![tactic(auto)]

ghost use Rattle.std.specs.Prelude.{◌≡◌, []};
ghost use Rattle.segments.specs.declared.Section.TheVariants.{None};
ghost use Rattle.segments.specs.Order.{walk_over};
ghost use Rattle.control_elements.specs.Sections.{turn};
ghost use Rattle.walk_laws.specs.Walking.{Within, allowed_by, message_opened, message_closed, stands_after, section_kept, stepped_by, follows, is_marker, marks_by, fits_by, later_section, begun_by, is_after};
ghost use Rattle.refusals.specs.Limits.{most_bytes};

use segments::{Groups, Kind, Messages, Section, Segments, Standing, Walk};

// Before the first segment.
pub fn beginning() -> Walk
    ensures { result ≡ walk_over None [] }
{
    Walk {
        standing: Standing::BeforeInterchange,
        section: Section::None,
        segments: Segments(0),
        messages: Messages(0),
        groups: Groups(0),
        in_message: Segments(0),
        in_group: Messages(0),
    }
}

// A segment of this kind is allowed where the walk stands. Outside every message: "one or more groups, or
// one or more messages, not both; then UNZ"; in a group: "A group is UNG, one or more messages, UNE."; in a
// message: "any number of user segments and UNS, UNT". (By standing and then by kind, as the paper's rules go: one match over both would name
// a standing for each of its kinds.)
fn allowed(w: Walk, kind: Kind) -> bool
    ensures { result ≡ allowed_by w kind }
{
    match w.standing {
        Standing::BeforeInterchange => matches!(kind, Kind::Unb),
        Standing::BetweenGroups => match kind {
            Kind::Ung => (0 < w.groups.0) | (w.messages.0 == 0),
            Kind::Unh => w.groups.0 == 0,
            Kind::Unz => 0 < w.messages.0,
            _ => false,
        },
        Standing::InGroup => match kind {
            Kind::Unh => true,
            Kind::Une => 0 < w.in_group.0,
            _ => false,
        },
        Standing::InGroupMessage | Standing::InMessage => {
            matches!(kind, Kind::User | Kind::Uns | Kind::Unt)
        }
        Standing::AfterInterchange => false,
    }
}

fn opened_message(standing: Standing) -> Standing
    ensures { result ≡ message_opened standing }
{
    match standing {
        Standing::InGroup => Standing::InGroupMessage,
        Standing::BeforeInterchange | Standing::BetweenGroups => Standing::InMessage,
        other => other,
    }
}

fn closed_message(standing: Standing) -> Standing
    ensures { result ≡ message_closed standing }
{
    match standing {
        Standing::InGroupMessage => Standing::InGroup,
        Standing::InMessage => Standing::BetweenGroups,
        other => other,
    }
}

fn stands(standing: Standing, kind: Kind) -> Standing
    ensures { result ≡ stands_after standing kind }
{
    match kind {
        Kind::Unb | Kind::Une => Standing::BetweenGroups,
        Kind::Ung => Standing::InGroup,
        Kind::Unh => opened_message(standing),
        Kind::Unt => closed_message(standing),
        Kind::Unz => Standing::AfterInterchange,
        Kind::Uns | Kind::User => standing,
    }
}

// A message begins without a section.
fn kept(kind: Kind, section: Section) -> Section
    ensures { result ≡ section_kept kind section }
{
    match kind {
        Kind::Unh => Section::None,
        _ => section,
    }
}

// The walk after a segment of this kind, which is allowed there.
pub fn stepped(w: Walk, kind: Kind) -> Walk
    requires { Within most_bytes w }
    ensures { result ≡ stepped_by w kind }
{
    let mut after = Walk {
        standing: stands(w.standing, kind),
        section: kept(kind, w.section),
        segments: Segments(w.segments.0 + 1),
        in_message: Segments(w.in_message.0 + 1),
        ..w
    };
    match kind {
        Kind::Unh => {
            after.messages.0 += 1;
            after.in_message = Segments(1);
            after.in_group.0 += 1;
        }
        Kind::Ung => {
            after.groups.0 += 1;
            after.in_group = Messages(0);
        }
        _ => {}
    }
    after
}

// The turn of a section in a message: they stand in their order. (The definition `follows` of `walk_laws` compares turns; a derived order
// of sections would have to be held against them first.)
fn turn_of(section: Section) -> u8
    ensures { result ≡ turn section }
{
    section as u8
}

// "each at most once in a message, D before S if both stand": the section that a UNS names comes after
// the one that began last.
fn may_follow(last: Section, section: Section) -> bool
    ensures { result ≡ follows last section }
{
    turn_of(last) < turn_of(section)
}

// Only a UNS begins a section. (`matches!` says here, and of other kinds elsewhere, what `kind == Kind::Uns` would by a derive.)
pub fn is_marker(kind: Kind) -> bool
    ensures { result ≡ is_marker kind }
{
    matches!(kind, Kind::Uns)
}

// A segment of this kind that begins this section keeps the rule. Only a UNS is asked.
fn marks(w: Walk, kind: Kind, section: Section) -> bool
    ensures { result ≡ marks_by w kind section }
{
    !is_marker(kind) || may_follow(w.section, section)
}

// A segment of this kind, which begins this section, fits where the walk stands: it is allowed there and
// keeps the rule of sections.
pub fn fits(w: Walk, kind: Kind, section: Section) -> bool
    ensures { result ≡ fits_by w kind section }
{
    allowed(w, kind) && marks(w, kind, section)
}

// Of the section that began last and the one that begins, if any, the later.
fn later(last: Section, section: Section) -> Section
    ensures { result ≡ later_section last section }
{
    match section {
        Section::None => last,
        _ => section,
    }
}

// The walk where this section begins; `None` where no section begins.
pub fn begun(w: Walk, section: Section) -> Walk
    ensures { result ≡ begun_by w section }
{
    Walk {
        section: later(w.section, section),
        ..w
    }
}

// Nothing more may follow, and nothing is missing.
pub fn is_complete(w: Walk) -> bool
    ensures { result ≡ is_after w.standing }
{
    matches!(w.standing, Standing::AfterInterchange)
}
