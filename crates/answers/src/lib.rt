// What the operations answer (paper 01, "Operations"): a `Result` of each, and for each of its cases
// the paper's number and values, in which the contracts are stated (specs/).
#![tactic(auto)]

use characters::Characters;
use refusals::Refusal;
use segments::{Groups, Messages, Segments};

// What Judge says of an accepted interchange; `length` is that of its normal form.
#[derive(Clone, Copy)]
pub struct Figures {
    pub characters: Characters,
    pub segments: Segments,
    pub messages: Messages,
    pub groups: Groups,
    pub length: usize,
}

// Which of two inputs is refused, and by what.
#[derive(Clone, Copy)]
pub enum Unaccepted {
    First(Refusal),
    Second(Refusal),
}

// How many bytes and how many numbers of the table Read stored.
#[derive(Clone, Copy)]
pub struct Listed {
    pub bytes: usize,
    pub numbers: usize,
}
