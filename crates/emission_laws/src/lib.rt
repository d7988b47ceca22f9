// The trimmed contents of a body, spelled in one pass (paper 01, "Trimming" and "Normal form"): a
// machine runs over the tokens from left to right and holds back separators until something follows
// them. specs/ has the machine; proofs/ shows that it spells the contents.
#![tactic(auto)]

// How many separators of each rank are held back: those of elements, after them those of repeats, and
// after them those of components.
#[derive(Clone, Copy)]
pub struct Held {
    pub elements: usize,
    pub repeats: usize,
    pub components: usize,
}

// How long the text is so far, and what is held back after it.
#[derive(Clone, Copy)]
pub struct Measure {
    pub total: usize,
    pub held: Held,
}
