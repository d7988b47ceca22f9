// The service characters of an interchange (paper 01, "Service characters"): which six bytes are
// usable, which ones an input uses, where its body begins, and what part a byte then plays.
// The definitions are in specs/. What the bytes of the body mean is left to `values`.
#![tactic(auto)]

// Six bytes in the advice's order. `release` is a space where there is no release character, and
// `repetition` where there is no repetition separator.
#[derive(Clone, Copy)]
pub struct Characters {
    pub component: u8,
    pub element: u8,
    pub mark: u8,
    pub release: u8,
    pub repetition: u8,
    pub terminator: u8,
}

// The part that a byte plays. A separator of rank 0 ends a segment, 1 an element, 2 a repeat, 3 a component.
#[derive(Clone, Copy)]
pub enum Role {
    Separator(u8),
    Release,
    Plain,
}
