// From bytes to values and back (paper 01, "From bytes to values"; change request 2026-10): the tokens of
// a body with their places, its segments, elements, repeats and values, trimming, and the spelling of a
// list of segments. An element of the older versions is one repeat.
// The definitions are in specs/. Which segments are allowed is left to `segments`.
#![tactic(auto)]

// A part of lent bytes: where it begins, and how long it is.
#[derive(Clone, Copy)]
pub struct Span {
    pub offset: usize,
    pub length: usize,
}
