// What stands where in a shelf (requests 2026-04 and 2026-06), read and stored: the map, a slot's start and length, how
// many bytes the texts have together, and where the free bytes begin. It promises the numbers that
// `shelves` reads there, in any layout. Whether the shelf is sound is left to `shelf_soundness`.
// (What becomes of another width by `as`, here and in the crates above, has no `from` in the library: it is cut to the
// width that was read, or crosses between `usize` and a width that is named.)
#![tactic(auto)]

ghost use Rattle.std.specs.Prelude.{◌≡◌, ◌++◌, ◌+◌, ◌*◌, ◌≤◌, ◌<◌, length};
ghost use Rattle.std.proofs.lemmas.List.Edits.{sets};
ghost use Rattle.numbers.specs.Numbers.{in_bytes};
ghost use Rattle.shelves.specs.Layout.{version_one, version_two, base as base_of, map_of, held_figure, duplicates_of, heading, pair_place, start_of, length_of, text_of, held as held_in, end_of};
ghost use Rattle.shelves.specs.Operations.{pair_of};
ghost use Rattle.shelf_layout.specs.Laid.{laid, kept_in};

use big_endian::get;
use slot_map::{SLOTS, is_occupied};

// A layout: its version, which is the number that stands in a shelf's bytes, and where its 64 pairs begin. All else follows.
#[derive(Clone, Copy)]
pub struct Layout {
    pub version: usize,
    pub pairs: usize,
}

// The bytes of all pairs, the most bytes of a shelf, and where the map and the two sums stand.
pub const PAIR_BYTES: usize = 512;

pub const MOST_SHELF: usize = 65536;

pub const MAP_PLACE: usize = 5;

pub const HELD_PLACE: usize = 13;

pub const DUPLICATES_PLACE: usize = 17;

// "`EDS`, a 16-bit version (1), a 64-bit map of occupied slots .., 64 pairs of 32-bit start and length"
pub fn version_one() -> Layout
    ensures { laid result ≡ version_one }
{
    Layout {
        version: 1,
        pairs: 13,
    }
}

// "Version 2 of the shelf has, after the map, 32 bits of text bytes held and 32 bits of duplicates found"
pub fn version_two() -> Layout
    ensures { laid result ≡ version_two }
{
    Layout {
        version: 2,
        pairs: 21,
    }
}

// Where the texts begin.
pub fn base(l: Layout) -> usize
    requires { l.pairs ≤ 65536 }
    ensures { result ≡ base_of (laid l) }
{
    l.pairs + PAIR_BYTES
}

pub fn map_of(s: &[u8]) -> u64
    requires { 13 ≤ length s.now }
    ensures { result ≡ map_of s.now }
{
    get(s, MAP_PLACE, 8)
}

// The text bytes held and the duplicates found, as they stand behind the map.
pub fn held_figure(s: &[u8]) -> u32
    requires { 17 ≤ length s.now }
    ensures { result ≡ held_figure s.now }
{
    get(s, HELD_PLACE, 4) as u32
}

pub fn duplicates_of(s: &[u8]) -> u32
    requires { 21 ≤ length s.now }
    ensures { result ≡ duplicates_of s.now }
{
    get(s, DUPLICATES_PLACE, 4) as u32
}

pub fn start_of(s: &[u8], l: Layout, slot: usize) -> usize
    requires { (base_of (laid l) ≤ length s.now) × (slot < 64) }
    ensures { (result ≡ start_of (laid l) s.now slot) × (result < 4294967296) }
{
    get(s, l.pairs + slot * 8, 4) as usize
}

pub fn length_of(s: &[u8], l: Layout, slot: usize) -> usize
    requires { (base_of (laid l) ≤ length s.now) × (slot < 64) }
    ensures { (result ≡ length_of (laid l) s.now slot) × (result < 4294967296) }
{
    get(s, l.pairs + slot * 8 + 4, 4) as usize
}

// The text of a slot, which lies in the shelf.
pub fn text_of(s: &[u8], l: Layout, slot: usize) -> &[u8]
    requires { (base_of (laid l) ≤ length s.now) × (slot < 64) × (start_of (laid l) s.now slot + length_of (laid l) s.now slot ≤ length s.now) }
    ensures { result.now ≡ text_of (laid l) s.now slot }
{
    let start = start_of(s, l, slot);
    let end = start + length_of(s, l, slot);
    &s[start..end]
}

// How many bytes a slot keeps.
fn kept_in(s: &[u8], l: Layout, map: u64, slot: usize) -> usize
    requires { (base_of (laid l) ≤ length s.now) × (slot < 64) × (map ≡ map_of s.now) }
    ensures { (result ≡ kept_in (laid l) s.now slot) × (result < 4294967296) }
{
    if is_occupied(map, slot) {
        length_of(s, l, slot)
    } else {
        0
    }
}

// How many bytes the texts have together.
pub fn held(s: &[u8], l: Layout) -> usize
    requires { base_of (laid l) ≤ length s.now }
    ensures { (result ≡ held_in (laid l) s.now) × (result ≤ 64 * 4294967296) }
{
    let map = map_of(s);
    let mut sum: usize = 0;
    for slot in 0..SLOTS {
        sum += kept_in(s, l, map, slot);
    }
    sum
}

// Where the free bytes begin.
pub fn end_of(s: &[u8], l: Layout) -> usize
    requires { (base_of (laid l) ≤ length s.now) × (l.pairs ≤ 65536) }
    ensures { result ≡ end_of (laid l) s.now }
{
    base(l) + held(s, l)
}

// Stores a slot's pair.
pub fn put_pair(s: &mut [u8], l: Layout, slot: usize, start: usize, size: usize)
    requires { (base_of (laid l) ≤ length s.old) × (slot < 64) }
    ensures { s.new ≡ sets s.old (pair_place (laid l) slot) (pair_of start size) }
{
    let at = l.pairs + slot * 8;
    big_endian::put(s, at, 4, start as u64);
    big_endian::put(s, at + 4, 4, size as u64);
}

// "`EDS`, a 16-bit version"
pub fn put_heading(s: &mut [u8], l: Layout)
    requires { 5 ≤ length s.old }
    ensures { s.new ≡ sets s.old 0 (heading (laid l)) }
{
    s[..3].copy_from_slice(b"EDS");
    big_endian::put(s, 3, 2, l.version as u64);
}
