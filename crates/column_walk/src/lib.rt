// A text in columns (request 2026-12), from line to line: what it is that a line stands at a place, which values
// are still to come from a place on, and that going on from line to line tells the texts that export gives from all
// others, and gives their values (specs/).
#![tactic(auto)]

use column_laws::Position;

// A line that stands at a place: what begins with its value, the value's position, and where its bytes stand.
#[derive(Clone, Copy)]
pub struct Line {
    pub kind: u32,
    pub position: Position,
    pub start: usize,
    pub end: usize,
}
