// Refusals (paper 01, "Refusals by number"): the twenty-four by name, and the rule that picks one:
// the first failing stage answers; within a stage the lowest place, then the lowest number.
// The definitions are in specs/. When each refusal is met is left to `stages`, `operations`, `shelves`,
// `message_structures`, `acknowledgements` and `columns`.
#![tactic(auto)]

// The most bytes of an input, a text or a normal form (refusals 1 and 13), and the most numbers of a
// value list's table (refusal 15).
pub const MOST_BYTES: usize = 32000;

pub const MOST_NUMBERS: usize = 96000;

#[derive(Clone, Copy)]
pub enum Fault {
    TooLong,
    UnusableAdvice,
    NoOpening,
    StrayRelease,
    UnendedSegment,
    BrokenTag,
    ForeignLevel,
    OutsideLevel,
    MisplacedSegment,
    BadControl,
    ReferenceDiffers,
    CountWrong,
    NormalTooLong,
    BufferShort,
    BadList,
    NeedsRelease,
    NoFreeSlot,
    NoRoom,
    UnsoundShelf,
    FreeSlot,
    UnsoundTable,
    UnmatchedBody,
    NoAcknowledgement,
    NoColumns,
}

#[derive(Clone, Copy)]
pub struct Refusal {
    pub fault: Fault,
    pub place: usize,
}
