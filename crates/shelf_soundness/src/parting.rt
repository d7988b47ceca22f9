// Whether any two kept texts are apart and differ. Texts of the same length are told apart by the sums of
// their bytes, which are taken once, and compared byte by byte only where these are the same.
ghost use Rattle.std.specs.Prelude.{◌≡◌, true, ◌<◌};
ghost use Rattle.lists.specs.Lists.{same};
ghost use Rattle.shelves.specs.Layout.{map_of, is_occupied, text_of as text_in};
ghost use Rattle.shelves.specs.Soundness.{apart};
ghost use Rattle.shelf_layout.specs.Laid.{laid};
ghost use Rattle.shelf_soundness.specs.Clauses.{Says, Ranged, sum_in, Summed, parted, AloneAt, Alone};

use shelf_layout::{Layout, length_of, start_of, text_of};
use slot_map::{SLOTS, is_occupied};

// The sum of the bytes of what a slot keeps.
fn sum_in(s: &[u8], l: Layout, map: u64, slot: usize) -> u32
    requires { Ranged (laid l) s.now × (map ≡ map_of s.now) × (slot < 64) }
    ensures { result ≡ sum_in (laid l) s.now slot }
{
    if is_occupied(map, slot) {
        texts::sum(text_of(s, l, slot))
    } else {
        0
    }
}

fn sums_of(s: &[u8], l: Layout, map: u64) -> [u32; 64]
    requires { Ranged (laid l) s.now × (map ≡ map_of s.now) }
    ensures { Summed (laid l) s.now result }
{
    let mut sums = [0u32; 64];
    for slot in 0..SLOTS {
        sums[slot] = sum_in(s, l, map, slot);
    }
    sums
}

// Two kept texts have the same bytes. Their lengths and sums are asked first.
fn are_same(s: &[u8], l: Layout, sums: &[u32; 64], one: usize, other: usize) -> bool
    requires { Ranged (laid l) s.now × Summed (laid l) s.now sums.now × ((one < 64) × (is_occupied s.now one ≡ true)) × ((other < 64) × (is_occupied s.now other ≡ true)) }
    ensures { result ≡ same (text_in (laid l) s.now one) (text_in (laid l) s.now other) }
{
    length_of(s, l, one) == length_of(s, l, other)
        && sums[one] == sums[other]
        && texts::equal(text_of(s, l, one), text_of(s, l, other))
}

// One text ends before the other begins.
fn are_apart(s: &[u8], l: Layout, one: usize, other: usize) -> bool
    requires { Ranged (laid l) s.now × (one < 64) × (other < 64) }
    ensures { result ≡ apart (laid l) s.now one other }
{
    let a = start_of(s, l, one);
    let b = start_of(s, l, other);
    (a + length_of(s, l, one) <= b) | (b + length_of(s, l, other) <= a)
}

// A kept text and that of another slot, where it keeps one, are apart and differ.
fn are_parted(s: &[u8], l: Layout, map: u64, sums: &[u32; 64], one: usize, other: usize) -> bool
    requires { Ranged (laid l) s.now × (map ≡ map_of s.now) × Summed (laid l) s.now sums.now × ((one < 64) × (is_occupied s.now one ≡ true)) × (other < 64) }
    ensures { result ≡ parted (laid l) s.now one other }
{
    !is_occupied(map, other) || (are_apart(s, l, one, other) && !are_same(s, l, sums, one, other))
}

// What a slot keeps is apart from what later slots keep, and differs from it.
fn is_alone(s: &[u8], l: Layout, map: u64, sums: &[u32; 64], slot: usize) -> bool
    requires { Ranged (laid l) s.now × (map ≡ map_of s.now) × Summed (laid l) s.now sums.now × (slot < 64) }
    ensures { Says result (AloneAt (laid l) s.now slot) }
{
    !is_occupied(map, slot)
        || (slot + 1..SLOTS).all(|other| are_parted(s, l, map, sums, slot, other))
}

pub fn are_alone(s: &[u8], l: Layout, map: u64) -> bool
    requires { Ranged (laid l) s.now × (map ≡ map_of s.now) }
    ensures { Says result (Alone (laid l) s.now) }
{
    let sums = sums_of(s, l, map);
    (0..SLOTS).all(|slot| is_alone(s, l, map, &sums, slot))
}
