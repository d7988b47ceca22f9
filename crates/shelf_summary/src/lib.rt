// The summary at a shelf's head (request 2026-06): the map, the text bytes held and the duplicates found, read
// from the head and stored back there, and what a put or a removal does to it. The core is by value; the thin
// steps over it change a summary that is lent by `&mut`. It promises every field after each of them. Which text
// was put or taken out is left to `shelf`.
#![tactic(auto)]

ghost use Rattle.std.specs.Prelude.{◌≡◌, true, false, ◌+◌, ◌≤◌, ◌<◌, length};
ghost use Rattle.shelves.specs.Layout.{bit};
ghost use Rattle.shelves.specs.Summary.{put_new, put_copy, removed as removed_of};
ghost use Rattle.shelf_summary.specs.Steps.{Heads, stored_back, shelved_of, after_put, PutFits, PutStays, after_remove, RemoveFits};

use refusals::Refusal;
use shelf_layout::{DUPLICATES_PLACE, HELD_PLACE, MAP_PLACE};
use shelves::{Shelved, Summary};

// What a put did: a new text of so many bytes in a slot, or the slot of the copy that it found. (It is no `Shelved`: a
// caller is not told the bytes, and the summary must be.)
#[derive(Clone, Copy)]
pub enum Placed {
    New { slot: usize, size: u32 },
    Copy(usize),
}

// ---- the head

// The summary as it stands at the shelf's head.
pub fn head_of(s: &[u8]) -> Summary
    requires { 21 ≤ length s.now }
    ensures { Heads s.now result }
{
    Summary {
        map: shelf_layout::map_of(s),
        held: shelf_layout::held_figure(s),
        duplicates: shelf_layout::duplicates_of(s),
    }
}

// Stores it back there.
pub fn store_head(s: &mut [u8], u: Summary)
    requires { 21 ≤ length s.old }
    ensures { s.new ≡ stored_back s.old u }
{
    big_endian::put(s, MAP_PLACE, 8, u.map);
    big_endian::put(s, HELD_PLACE, 4, u64::from(u.held));
    big_endian::put(s, DUPLICATES_PLACE, 4, u64::from(u.duplicates));
}

// ---- the core: what a put or a removal does to the summary

// A new text: its bit, and its bytes.
pub fn put_new(u: Summary, slot: usize, size: u32) -> Summary
    requires { ((slot < 64) × (bit u.map slot ≡ false)) × (u.held + size < 4294967296) }
    ensures { result ≡ put_new u slot size }
{
    Summary {
        map: slot_map::occupied(u.map, slot),
        held: u.held + size,
        ..u
    }
}

// A copy: one duplicate more, up to the ceiling.
pub fn put_copy(u: Summary) -> Summary
    ensures { result ≡ put_copy u }
{
    Summary {
        duplicates: u.duplicates.saturating_add(1),
        ..u
    }
}

// A text taken out of its slot.
pub fn removed(u: Summary, slot: usize, size: u32) -> Summary
    requires { ((slot < 64) × (bit u.map slot ≡ true)) × (size ≤ u.held) }
    ensures { result ≡ removed_of u slot size }
{
    Summary {
        map: slot_map::freed(u.map, slot),
        held: u.held - size,
        ..u
    }
}

pub fn after_put(u: Summary, placed: Result<Placed, Refusal>) -> Summary
    requires { PutFits u placed }
    ensures { result ≡ after_put u placed }
{
    // (Nested patterns in one match were tried: a proof does not see what the inner one matched.)
    match placed {
        Ok(done) => match done {
            Placed::New { slot, size } => put_new(u, slot, size),
            Placed::Copy(_) => put_copy(u),
        },
        Err(_) => u,
    }
}

pub fn after_remove(u: Summary, slot: usize, taken: Result<usize, Refusal>) -> Summary
    requires { RemoveFits u slot taken }
    ensures { result ≡ after_remove u slot taken }
{
    match taken {
        Ok(size) => removed(u, slot, size as u32),
        Err(_) => u,
    }
}

// ---- the thin steps

pub fn put_step(u: &mut Summary, placed: Result<Placed, Refusal>)
    requires { PutFits u.old placed }
    ensures { (u.new ≡ after_put u.old placed) × PutStays placed u.old u.new }
{
    *u = after_put(*u, placed);
}

// The duplicates figure stays.
pub fn remove_step(u: &mut Summary, slot: usize, taken: Result<usize, Refusal>)
    requires { RemoveFits u.old slot taken }
    ensures { (u.new ≡ after_remove u.old slot taken) × (u.new.duplicates ≡ u.old.duplicates) }
{
    *u = after_remove(*u, slot, taken);
}

// ---- the answer

pub fn shelved_of(placed: Result<Placed, Refusal>) -> Result<Shelved, Refusal>
    ensures { result ≡ shelved_of placed }
{
    Ok(match placed? {
        Placed::New { slot, .. } => Shelved::New(slot),
        Placed::Copy(slot) => Shelved::Copy(slot),
    })
}
