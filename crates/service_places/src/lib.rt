// Where service characters stand in lent bytes that are asked again and again: the bytes are cut into blocks, and a lent array
// holds for each block the first place from its start on. It promises of any part of the bytes whether a service character
// stands in it; the question looks at the bytes of one block at most.
#![tactic(auto)]

ghost use Rattle.std.specs.Prelude.{◌≡◌, ◌-◌, ◌≤◌, length, take, drop};
ghost use Rattle.lists.specs.Lists.{any};
ghost use Rattle.characters.specs.Characters.{is_service};
ghost use Rattle.service_places.specs.Places.{blocks, next_place, Noted};

use characters::Characters;
use storing::is_service;

// How many blocks there are at most.
pub const BLOCKS: usize = 1024;

// One of the bytes is a service character. Nothing here branches on what a byte is, so that many bytes are asked at once.
pub fn holds_service(c: Characters, s: &[u8]) -> bool
    ensures { result ≡ any (is_service c) s.now }
{
    let mut found = false;
    for &b in s {
        found |= is_service(c, b);
    }
    found
}

// ---- the places

fn next_place(c: Characters, s: &[u8], from: usize) -> usize
    ensures { result ≡ next_place (is_service c) s.now from }
{
    (from..s.len())
        .find(|&at| is_service(c, s[at]))
        .unwrap_or(from.max(s.len()))
}

// The same, where a place that is known from before is right unless it is passed.
fn place_from(c: Characters, s: &[u8], known: usize, from: usize) -> usize
    requires { from ≤ known → known ≡ next_place (is_service c) s.now from }
    ensures { result ≡ next_place (is_service c) s.now from }
{
    if from <= known {
        return known;
    }
    next_place(c, s, from)
}

// Stores the places, and returns the size of a block. Each byte is asked once. (`iter_mut` would hand out the cells alone: what
// is promised is told by the blocks' numbers, and the loop ends where the bytes do.)
pub fn store_places(c: Characters, s: &[u8], places: &mut [usize; BLOCKS]) -> usize
    requires { length places.old ≡ blocks }
    ensures { Noted (is_service c) s.now result places.new }
{
    let size = s.len() / BLOCKS + 1;
    let mut place = next_place(c, s, 0);
    let mut start = 0;
    for k in 0..BLOCKS {
        place = place_from(c, s, place, start);
        places[k] = place;
        if s.len() - start < size {
            return size;
        }
        start += size;
    }
    size
}

// ---- what they say

// From a place on that is behind the first of its block: the rest of the block is asked, and the next block's place. (What is
// lent stays as it is handed in, here and below: `value_lists` has the bytes, the size and the array of places each by itself.)
fn holds_behind(
    c: Characters,
    s: &[u8],
    size: usize,
    places: &[usize; BLOCKS],
    start: usize,
    end: usize,
) -> bool
    requires { (start ≤ end) × (end ≤ length s.now) × Noted (is_service c) s.now size places.now }
    ensures { result ≡ any (is_service c) (take (end - start) (drop start s.now)) }
{
    let left = size - start % size;
    if end - start <= left {
        return holds_service(c, &s[start..end]);
    }
    if places[start / size + 1] < end {
        return true;
    }
    let next = start + left;
    holds_service(c, &s[start..next])
}

// A service character stands from a place on and before another.
pub fn holds_between(
    c: Characters,
    s: &[u8],
    size: usize,
    places: &[usize; BLOCKS],
    start: usize,
    end: usize,
) -> bool
    requires { (start ≤ end) × (end ≤ length s.now) × Noted (is_service c) s.now size places.now }
    ensures { result ≡ any (is_service c) (take (end - start) (drop start s.now)) }
{
    let place = places[start / size];
    if start <= place {
        return place < end;
    }
    holds_behind(c, s, size, places, start, end)
}
