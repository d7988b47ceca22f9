// What follows of lines for a spreadsheet (request 2026-12): which texts are taken, and that each gives one list;
// what comes back of an export that is imported, and of an import that is exported; and the lines one after the
// other, each by the position of its value (specs/).
#![tactic(auto)]

// Where a value stands: the four numbers in front of it in its line.
#[derive(Clone, Copy)]
pub struct Position {
    pub segment: usize,
    pub element: usize,
    pub repeat: usize,
    pub component: usize,
}
