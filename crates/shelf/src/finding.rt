// The slot of a text that is kept already.
ghost use Rattle.std.specs.Prelude.{◌≡◌, true, ◌≤◌, ◌<◌};
ghost use Rattle.shelves.specs.Layout.{map_of};
ghost use Rattle.shelves.specs.Soundness.{sound};
ghost use Rattle.shelf_layout.specs.Laid.{laid};
ghost use Rattle.shelf.specs.Parts.{keeps_text, CopyAt};

use shelf_layout::{Layout, length_of, text_of};
use slot_map::{SLOTS, is_occupied};

// A slot keeps this text. Its length is asked first.
fn keeps(s: &[u8], l: Layout, map: u64, slot: usize, form: &[u8]) -> bool
    requires { (sound (laid l) s.now ≡ true) × (map ≡ map_of s.now) × (slot < 64) }
    ensures { result ≡ keeps_text (laid l) s.now form.now slot }
{
    is_occupied(map, slot)
        && length_of(s, l, slot) == form.len()
        && texts::equal(text_of(s, l, slot), form)
}

// The lowest occupied slot that keeps this text, if one does.
pub fn copy_of(s: &[u8], l: Layout, map: u64, form: &[u8]) -> Option<usize>
    requires { (sound (laid l) s.now ≡ true) × (map ≡ map_of s.now) }
    ensures { CopyAt (laid l) s.now form.now result }
{
    (0..SLOTS).find(|&slot| keeps(s, l, map, slot, form))
}
