// The shelf (requests 2026-04 and 2026-06): a lent buffer that keeps up to 64 normal forms, each once. Its
// layouts of version 1 and 2, when it is sound, and what Start, Put, Get, Remove, the two numbers read off
// the map and the two sums answer and leave in the buffer, are in specs/. The layout is a parameter.
#![tactic(auto)]

// The summary at a shelf's head: the map of occupied slots, the text bytes held, the duplicates found.
#[derive(Clone, Copy)]
pub struct Summary {
    pub map: u64,
    pub held: u32,
    pub duplicates: u32,
}

// What Put says: the slot of a text that it stored, or of the copy that it found.
#[derive(Clone, Copy)]
pub enum Shelved {
    New(usize),
    Copy(usize),
}

// What is read off the map: how many slots are occupied, and the lowest free one, 64 where none is.
#[derive(Clone, Copy)]
pub struct Slots {
    pub occupied: usize,
    pub lowest_free: usize,
}

// What the two sums are: the text bytes held, and the duplicates found.
#[derive(Clone, Copy)]
pub struct TwoSums {
    pub held: u32,
    pub duplicates: u32,
}
