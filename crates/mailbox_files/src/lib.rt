// Mailbox files (request 2026-02): where a file with interchanges end to end is cut into pieces, and the
// figures of the morning report over the list of its pieces, for every file. The definitions are in specs/,
// with what the operation promises. The pieces are bytes; what Judge says of each is left to `operations`.
#![tactic(auto)]

use segments::{Messages, Segments};

// The most bytes of a file.
pub const MOST_FILE: usize = 65536;

// The figures over the pieces of a file. `refused` has, at a refusal's number, how many pieces are refused
// under it; the one at 0 is 0, since no refusal has that number. `total` and `longest` are of normal forms.
#[derive(Clone, Copy)]
pub struct Report {
    pub accepted: u32,
    pub refused: [u32; 14],
    pub segments: Segments,
    pub messages: Messages,
    pub total: usize,
    pub longest: usize,
}
