// Segments (paper 01, the tag rule and "Order of segments"): the kind that a tag names, the rule for
// tags, where the check stands as it walks, which segment is allowed there, and the three counters.
// The definitions are in specs/. What trailers and UNS must say is left to `control_elements`.
#![tactic(auto)]

// The service segments, and every other one.
#[derive(Clone, Copy)]
pub enum Kind {
    Unb,
    Ung,
    Unh,
    Uns,
    Unt,
    Une,
    Unz,
    User,
}

// Where the check stands: before UNB, outside every group and message, inside a group,
// inside a message of a group or of none, and after UNZ.
#[derive(Clone, Copy)]
pub enum Standing {
    BeforeInterchange,
    BetweenGroups,
    InGroup,
    InGroupMessage,
    InMessage,
    AfterInterchange,
}

// The sections that a UNS begins (change request 2026-03): detail or summary. As a part of the walk, the
// one that began last in the message; none where no section has begun. Of a UNS, the one that it names;
// none where it names neither.
#[derive(Clone, Copy)]
pub enum Section {
    None,
    Detail,
    Summary,
}

// Three counters that the standard keeps apart.
#[derive(Clone, Copy)]
pub struct Segments(pub u32);

#[derive(Clone, Copy)]
pub struct Messages(pub u32);

#[derive(Clone, Copy)]
pub struct Groups(pub u32);

// Where the walk stands, which section of the message it is in, and what it has counted so far: in the
// interchange, since the last UNH (which is one of them) and since the last UNG, or since the start
// where there was none.
#[derive(Clone, Copy)]
pub struct Walk {
    pub standing: Standing,
    pub section: Section,
    pub segments: Segments,
    pub messages: Messages,
    pub groups: Groups,
    pub in_message: Segments,
    pub in_group: Messages,
}
