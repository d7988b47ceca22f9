// The shelf of version 2 (requests 2026-04 and 2026-06): Start, Put, Get, Remove, the two numbers read off the
// map, and the two sums, over a lent buffer. They promise, for any bytes, the answer that `shelves` gives and
// every byte of the shelf at exit; what is refused leaves it unchanged. Put and Remove are lent the summary at
// the shelf's head. The functions that take a layout serve every version.
#![tactic(auto)]

ghost use Rattle.std.specs.Prelude.{◌≡◌, true, ◌+◌, ◌≤◌, length};
ghost use Rattle.refusals.specs.Refusals.{outcome};
ghost use Rattle.shelves.specs.Layout.{version_two};
ghost use Rattle.shelves.specs.Soundness.{sound};
ghost use Rattle.shelves.specs.Operations.{slot_refusal};
ghost use Rattle.shelf_contracts.specs.Promises.{Starts, Puts, Gets, Measures, Removes, Counts, Sums};
ghost use Rattle.shelf_layout.specs.Laid.{laid};
ghost use Rattle.shelf_summary.specs.Steps.{Heads, shelved_of, PutStays};
ghost use Rattle.shelf.specs.Parts.{asked_slot, got_span, PutsLent, RemovesLent};

use refusals::{Fault, Refusal};
use refusing::failed;
use shelf_layout::{Layout, length_of, map_of, start_of, version_two};
use shelf_soundness::check_sound;
use shelf_summary::{Placed, head_of, put_step, remove_step, shelved_of, store_head};
use shelves::{Shelved, Slots, Summary, TwoSums};
use slot_map::{SLOTS, is_occupied};
use values::Span;

mod finding;
mod putting;
mod removing;

// ---- Start

// An empty shelf over a lent buffer.
pub fn start_as(s: &mut [u8], l: Layout) -> Result<(), Refusal>
    requires { l.pairs ≤ 65536 }
    ensures { Starts (laid l) s.old result s.new }
{
    if !shelf_soundness::is_sized(s, l) {
        return failed(Fault::UnsoundShelf, 0);
    }
    let size = s.len();
    storing::fill(s, 0, size, 0);
    shelf_layout::put_heading(s, l);
    Ok(())
}

pub fn start(s: &mut [u8]) -> Result<(), Refusal>
    ensures { Starts version_two s.old result s.new }
{
    start_as(s, version_two())
}

// ---- the two numbers read off the map

pub fn slots_of(s: &[u8], l: Layout) -> Result<Slots, Refusal>
    requires { l.pairs ≤ 65536 }
    ensures { Counts (laid l) s.now result }
{
    check_sound(s, l)?;
    let map = map_of(s);
    Ok(Slots {
        occupied: slot_map::count(map),
        lowest_free: slot_map::lowest_free(map),
    })
}

pub fn slots(s: &[u8]) -> Result<Slots, Refusal>
    ensures { Counts version_two s.now result }
{
    slots_of(s, version_two())
}

// ---- the two sums

pub fn sums(s: &[u8]) -> Result<TwoSums, Refusal>
    ensures { Sums version_two s.now result }
{
    check_sound(s, version_two())?;
    let u = head_of(s);
    Ok(TwoSums {
        held: u.held,
        duplicates: u.duplicates,
    })
}

// ---- Put

// The operation: it is lent the shelf and its summary. What it leaves in the shelf's head is stored over by its caller.
fn put_lent(s: &mut [u8], u: &mut Summary, input: &[u8]) -> Result<Placed, Refusal>
    requires { (sound version_two s.old ≡ true) × Heads s.old u.old }
    ensures { PutsLent s.old input.now result s.new u.new × PutStays result u.old u.new }
{
    let placed = putting::put_text(s, *u, input);
    put_step(u, placed);
    placed
}

// The summary that was read from the head is lent, and stored back there.
fn put_on(s: &mut [u8], head: Summary, input: &[u8]) -> Result<Placed, Refusal>
    requires { (sound version_two s.old ≡ true) × Heads s.old head }
    ensures { Puts version_two s.old input.now (shelved_of result) s.new }
{
    let mut u = head;
    let placed = put_lent(s, &mut u, input);
    store_head(s, u);
    placed
}

pub fn put(s: &mut [u8], input: &[u8]) -> Result<Shelved, Refusal>
    ensures { Puts version_two s.old input.now result s.new }
{
    check_sound(s, version_two())?;
    let head = head_of(s);
    shelved_of(put_on(s, head, input))
}

// ---- Get

// 20: passes a slot that is occupied in this map.
fn check_slot(map: u64, slot: usize) -> Result<(), Refusal>
    ensures { result ≡ asked_slot map slot }
{
    if slot < SLOTS && is_occupied(map, slot) {
        Ok(())
    } else {
        failed(Fault::FreeSlot, slot)
    }
}

// What get or remove of a slot is refused by.
pub fn slot_refusal(s: &[u8], l: Layout, slot: usize) -> Result<(), Refusal>
    requires { l.pairs ≤ 65536 }
    ensures { result ≡ outcome (slot_refusal (laid l) s.now slot) }
{
    check_sound(s, l)?;
    check_slot(map_of(s), slot)
}

// Which part of the shelf Get hands back; zero bytes at its start where refused.
pub fn got_from(s: &[u8], l: Layout, slot: usize) -> Span
    requires { l.pairs ≤ 65536 }
    ensures value { result ≡ got_span (laid l) s.now slot }
    ensures inside { result.offset + result.length ≤ length s.now }
{
    match slot_refusal(s, l, slot) {
        Ok(()) => Span {
            offset: start_of(s, l, slot),
            length: length_of(s, l, slot),
        },
        Err(_) => Span {
            offset: 0,
            length: 0,
        },
    }
}

pub fn got(s: &[u8], slot: usize) -> Span
    ensures value { result ≡ got_span version_two s.now slot }
    ensures inside { result.offset + result.length ≤ length s.now }
{
    got_from(s, version_two(), slot)
}

// That part of the shelf.
pub fn get<'a>(s: &'a [u8], slot: usize) -> &'a [u8]
    ensures { Gets version_two s.entry slot result }
{
    let part = got(s, slot);
    let offset = part.offset;
    let end = offset + part.length;
    &s[offset..end]
}

// Get's companion: how long the kept text is, or what Get was refused by.
pub fn measure_in(s: &[u8], l: Layout, slot: usize) -> Result<usize, Refusal>
    requires { l.pairs ≤ 65536 }
    ensures { Measures (laid l) s.now slot result }
{
    slot_refusal(s, l, slot)?;
    Ok(length_of(s, l, slot))
}

pub fn measure(s: &[u8], slot: usize) -> Result<usize, Refusal>
    ensures { Measures version_two s.now slot result }
{
    measure_in(s, version_two(), slot)
}

// ---- Remove

// The operation: it is lent the shelf and its summary. What it leaves in the shelf's head is stored over by its caller.
fn remove_lent(s: &mut [u8], u: &mut Summary, slot: usize) -> Result<usize, Refusal>
    requires { (sound version_two s.old ≡ true) × Heads s.old u.old }
    ensures { RemovesLent s.old slot result s.new u.new × (u.new.duplicates ≡ u.old.duplicates) }
{
    let taken = removing::take_text(s, *u, slot);
    remove_step(u, slot, taken);
    taken
}

// The summary that was read from the head is lent, and stored back there.
fn remove_on(s: &mut [u8], head: Summary, slot: usize) -> Result<usize, Refusal>
    requires { (sound version_two s.old ≡ true) × Heads s.old head }
    ensures { Removes version_two s.old slot result s.new }
{
    let mut u = head;
    let taken = remove_lent(s, &mut u, slot);
    store_head(s, u);
    taken
}

pub fn remove(s: &mut [u8], slot: usize) -> Result<usize, Refusal>
    ensures { Removes version_two s.old slot result s.new }
{
    check_sound(s, version_two())?;
    let head = head_of(s);
    remove_on(s, head, slot)
}
