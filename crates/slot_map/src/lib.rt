// The map of occupied slots (request 2026-04: "slot k is the bit worth 2^k"): a slot asked, occupied and
// freed, and the two numbers that "are read off the map", how many slots are occupied and the lowest
// that is free. It promises what `shelves` says of these. (The library has no `from` of a `u32` to a `usize`.)
#![tactic(auto)]

ghost use Rattle.std.specs.Prelude.{◌≡◌, true, false, ◌+◌, ◌-◌, ◌<◌, ◌^◌};
ghost use Rattle.shelves.specs.Layout.{bit};
ghost use Rattle.slot_map.specs.Slots.{occupied_count, lowest_free_in};

pub const SLOTS: usize = 64;

pub fn is_occupied(map: u64, slot: usize) -> bool
    requires { slot < 64 }
    ensures { result ≡ bit map slot }
{
    (map >> slot) % 2 == 1
}

// The map with a free slot occupied.
pub fn occupied(map: u64, slot: usize) -> u64
    requires { (slot < 64) × (bit map slot ≡ false) }
    ensures { result ≡ map + 2 ^ slot }
{
    map | (1 << slot)
}

// The map with an occupied slot freed.
pub fn freed(map: u64, slot: usize) -> u64
    requires { (slot < 64) × (bit map slot ≡ true) }
    ensures { result ≡ map - 2 ^ slot }
{
    map - (1 << slot)
}

// How many slots are occupied: the map's ones.
pub fn count(map: u64) -> usize
    ensures { result ≡ occupied_count map }
{
    u64::count_ones(map) as usize
}

// The lowest free slot, 64 where none is: the trailing zeros of the complemented map. (64, and no `None`: so
// `hverolda_shelf_slots` says it to C, by `lowest_free` of `shelves`.)
pub fn lowest_free(map: u64) -> usize
    ensures { result ≡ lowest_free_in map }
{
    u64::trailing_zeros(!map) as usize
}
