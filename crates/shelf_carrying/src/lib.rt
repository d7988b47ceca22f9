// Old shelves carried over, and back (request 2026-07): a shelf of version 1 becomes one of version 2 in its own
// buffer, and one of version 2 becomes one of version 1. All from the pairs on moves by the eight bytes of the
// two sums, in one move and with no scratch; then the starts are raised or lowered, and the head is stored. They
// promise, for any bytes, the answer that `carrying` gives and every byte of the shelf at exit; what is refused
// leaves it unchanged.
#![tactic(auto)]

ghost use Rattle.std.specs.Prelude.{◌≡◌, true, ◌+◌, ◌≤◌, ◌<◌, length};
ghost use Rattle.std.proofs.lemmas.List.Edits.{sets};
ghost use Rattle.shelves.specs.Layout.{version_one, version_two, bit, base as base_of, pair_place, start_of, end_of};
ghost use Rattle.shelves.specs.Soundness.{sound};
ghost use Rattle.shelf_layout.specs.Laid.{laid};
ghost use Rattle.carrying.specs.Carrying.{carried, carried_back};
ghost use Rattle.carrying.specs.Promises.{Carries, CarriesBack};
ghost use Rattle.shelf_carrying.specs.Parts.{shifted_pair, shifted_pairs, Shifts};

use refusals::{Fault, Refusal};
use refusing::failed;
use shelf_layout::{
    DUPLICATES_PLACE, HELD_PLACE, Layout, base, length_of, map_of, put_heading, put_pair, start_of,
    version_one, version_two,
};
use shelf_soundness::check_sound;
use slot_map::{SLOTS, is_occupied};

// ---- the starts

// Stores a slot's pair, which has moved to its place in the other layout, with its start there.
fn shift_start(s: &mut [u8], from: Layout, to: Layout, map: u64, slot: usize)
    requires { (base_of (laid to) ≤ length s.old) × ((from.pairs ≤ 65536) × (to.pairs ≤ 65536)) × (slot < 64) × (bit map slot ≡ true → base_of (laid from) ≤ start_of (laid to) s.old slot) }
    ensures { s.new ≡ sets s.old (pair_place (laid to) slot) (shifted_pair (laid from) (laid to) map s.old slot) }
{
    if is_occupied(map, slot) {
        let start = base(to) + (start_of(s, to, slot) - base(from));
        let size = length_of(s, to, slot);
        put_pair(s, to, slot, start, size);
    } else {
        put_pair(s, to, slot, 0, 0);
    }
}

fn shift_starts(s: &mut [u8], from: Layout, to: Layout, map: u64)
    requires { (base_of (laid to) ≤ length s.old) × ((from.pairs ≤ 65536) × (to.pairs ≤ 65536)) × Shifts (laid from) (laid to) map s.old }
    ensures { s.new ≡ sets s.old to.pairs (shifted_pairs (laid from) (laid to) map s.old 64) }
{
    for slot in 0..SLOTS {
        shift_start(s, from, to, map, slot);
    }
}

// ---- version 1 into version 2

// A sound shelf that has eight free bytes: all moves from where the pairs of version 1 begin to where those of
// version 2 do, and the last eight bytes, which are free, fall off.
fn carry_up(s: &mut [u8])
    requires { (sound version_one s.old ≡ true) × (end_of version_one s.old + 8 ≤ length s.old) }
    ensures { s.new ≡ carried s.old }
{
    let map = map_of(s);
    let held = shelf_layout::held(s, version_one());
    let end = s.len() - 8;
    moving::move_up(s, 21, 13, end);
    shift_starts(s, version_one(), version_two(), map);
    put_heading(s, version_two());
    big_endian::put(s, HELD_PLACE, 4, held as u64);
    big_endian::put(s, DUPLICATES_PLACE, 4, 0);
}

pub fn carry(s: &mut [u8]) -> Result<(), Refusal>
    ensures { Carries s.old result s.new }
{
    check_sound(s, version_one())?;
    if s.len() - shelf_layout::end_of(s, version_one()) < 8 {
        return failed(Fault::NoRoom, 8);
    }
    carry_up(s);
    Ok(())
}

// ---- version 2 into version 1

// A sound shelf: the same the other way round, and the last eight bytes become free.
fn carry_down(s: &mut [u8])
    requires { sound version_two s.old ≡ true }
    ensures { s.new ≡ carried_back s.old }
{
    let map = map_of(s);
    let end = s.len();
    moving::move_down(s, 13, 21, end);
    shift_starts(s, version_two(), version_one(), map);
    put_heading(s, version_one());
}

pub fn carry_back(s: &mut [u8]) -> Result<(), Refusal>
    ensures { CarriesBack s.old result s.new }
{
    check_sound(s, version_two())?;
    carry_down(s);
    Ok(())
}
