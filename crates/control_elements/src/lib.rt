// Control elements (paper 01, "Control elements"; change request 2026-03): where a service segment's
// count and reference stand, what they must look like, what a trailer must say of what it closes, and
// which section a UNS may begin. The definitions are in specs/.
#![tactic(auto)]

// The numbers of two elements, counted from 1 after the tag; 0 means none.
#[derive(Clone, Copy)]
pub struct Positions {
    pub count: usize,
    pub reference: usize,
}
