// Where the texts of a shelf lie.
ghost use Rattle.std.specs.Prelude.{◌≡◌, ◌≤◌, ◌<◌, length};
ghost use Rattle.shelves.specs.Layout.{base, map_of, end_of};
ghost use Rattle.shelf_layout.specs.Laid.{laid};
ghost use Rattle.shelf_soundness.specs.Clauses.{Says, placed, Placed};

use shelf_layout::{Layout, length_of, start_of};
use slot_map::{SLOTS, is_occupied};

// A kept text lies in the room that the texts fill together; a free slot's pair is zero.
fn is_placed(s: &[u8], l: Layout, map: u64, end: usize, slot: usize) -> bool
    requires { (base (laid l) ≤ length s.now) × (l.pairs ≤ 65536) × (map ≡ map_of s.now) × (end ≡ end_of (laid l) s.now) × (slot < 64) }
    ensures { result ≡ placed (laid l) s.now slot }
{
    let start = start_of(s, l, slot);
    let length = length_of(s, l, slot);
    if is_occupied(map, slot) {
        (shelf_layout::base(l) <= start) & (start + length <= end)
    } else {
        (start == 0) & (length == 0)
    }
}

pub fn are_placed(s: &[u8], l: Layout, map: u64, end: usize) -> bool
    requires { (base (laid l) ≤ length s.now) × (l.pairs ≤ 65536) × (map ≡ map_of s.now) × (end ≡ end_of (laid l) s.now) }
    ensures { Says result (Placed (laid l) s.now) }
{
    (0..SLOTS).all(|slot| is_placed(s, l, map, end, slot))
}
