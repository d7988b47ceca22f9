// A text taken out of a sound shelf, all but its head: later texts move down, what was vacated is zeroed, and
// their starts are lowered.
ghost use Rattle.std.specs.Prelude.{◌≡◌, true, ◌≤◌, ◌<◌, length};
ghost use Rattle.std.proofs.lemmas.List.Edits.{sets};
ghost use Rattle.lists.specs.Lists.{gather};
ghost use Rattle.shelves.specs.Layout.{version_two, below, slot_count, is_occupied, base, pair_place, start_of, length_of};
ghost use Rattle.shelves.specs.Soundness.{sound};
ghost use Rattle.shelves.specs.Operations.{pair_without};
ghost use Rattle.shelf_layout.specs.Laid.{laid};
ghost use Rattle.shelf_summary.specs.Steps.{Heads};
ghost use Rattle.shelf.specs.Parts.{Lowers, lowered_pair, cleared, TakesText};

use crate::check_slot;
use refusals::Refusal;
use shelf_layout::{Layout, length_of, put_pair, start_of};
use shelves::Summary;
use slot_map::SLOTS;

// Stores a slot's pair as it is after `size` bytes at `start`, the text of another slot, were taken out.
fn lower_start(s: &mut [u8], l: Layout, removed: usize, start: usize, size: usize, slot: usize)
    requires { (base (laid l) ≤ length s.old) × (slot < 64) × (start < start_of (laid l) s.old slot → size ≤ start_of (laid l) s.old slot) }
    ensures { s.new ≡ sets s.old (pair_place (laid l) slot) (lowered_pair removed start size slot (start_of (laid l) s.old slot) (length_of (laid l) s.old slot)) }
{
    let at = start_of(s, l, slot);
    let n = length_of(s, l, slot);
    if slot == removed {
        put_pair(s, l, slot, 0, 0);
    } else if start < at {
        put_pair(s, l, slot, at - size, n);
    } else {
        put_pair(s, l, slot, at, n);
    }
}

// Stores each slot's pair as it is without the text of one of them.
fn lower_starts(s: &mut [u8], l: Layout, removed: usize, start: usize, size: usize)
    requires { (base (laid l) ≤ length s.old) × ((start ≡ start_of (laid l) s.old removed) × (size ≡ length_of (laid l) s.old removed)) × Lowers (laid l) s.old removed }
    ensures { s.new ≡ sets s.old l.pairs (gather (pair_without (laid l) s.old removed) (below slot_count)) }
{
    for slot in 0..SLOTS {
        lower_start(s, l, removed, start, size, slot);
    }
}

// The text of a slot, and its pair.
fn take_out(s: &mut [u8], l: Layout, u: Summary, slot: usize, size: usize)
    requires { ((sound (laid l) s.old ≡ true) × ((21 ≤ l.pairs) × (l.pairs ≤ 65536)) × Heads s.old u) × ((slot < 64) × (is_occupied s.old slot ≡ true)) × (size ≡ length_of (laid l) s.old slot) }
    ensures { s.new ≡ cleared (laid l) s.old slot }
{
    let start = start_of(s, l, slot);
    let end = shelf_layout::base(l) + u.held as usize;
    moving::move_down(s, start, start + size, end);
    lower_starts(s, l, slot, start, size);
}

pub fn take_text(s: &mut [u8], u: Summary, slot: usize) -> Result<usize, Refusal>
    requires { (sound version_two s.old ≡ true) × Heads s.old u }
    ensures { TakesText version_two s.old slot result s.new }
{
    check_slot(u.map, slot)?;
    let l = shelf_layout::version_two();
    let size = length_of(s, l, slot);
    take_out(s, l, u, slot, size);
    Ok(size)
}
