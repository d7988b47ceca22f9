// Where the count and the reference of a service segment stand (paper 01, "Control elements"). It
// promises that the constant table is the paper's.
#![tactic(auto)]

ghost use Rattle.std.specs.Prelude.{◌≡◌};
ghost use Rattle.segments.specs.Kinds.{index};
ghost use Rattle.control_elements.specs.Positions.{positions_of};

use control_elements::Positions;
use segments::Kind;

// An entry of the table: `Positions` in two bytes. (The paper asks for "one fixed table", so that no match stands here; and 0 stays for none,
// since `position_table` and `stands_well` of `control_elements` have it so.)
#[derive(Clone, Copy)]
struct Entry {
    count: u8,
    reference: u8,
}

// By kind of segment: UNB, UNG, UNH, UNS, UNT, UNE, UNZ, any other.
const POSITIONS: [Entry; 8] = [
    Entry {
        count: 0,
        reference: 5,
    },
    Entry {
        count: 0,
        reference: 5,
    },
    Entry {
        count: 0,
        reference: 1,
    },
    Entry {
        count: 0,
        reference: 0,
    },
    Entry {
        count: 1,
        reference: 2,
    },
    Entry {
        count: 1,
        reference: 2,
    },
    Entry {
        count: 1,
        reference: 2,
    },
    Entry {
        count: 0,
        reference: 0,
    },
];

// A kind's place in the table: the kinds stand there in their order.
fn index_of(kind: Kind) -> usize
    ensures { result ≡ index kind }
{
    kind as usize
}

pub fn positions_of(kind: Kind) -> Positions
    ensures { result ≡ positions_of kind }
{
    let at = index_of(kind);
    let entry = POSITIONS[at];
    Positions {
        count: usize::from(entry.count),
        reference: usize::from(entry.reference),
    }
}
