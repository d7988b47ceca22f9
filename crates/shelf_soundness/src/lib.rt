// Whether a shelf is sound (requests 2026-04 and 2026-06), for any bytes. It promises the answer that `shelves` gives. Each
// kept text is judged once; the rest takes little beside that. (A shelf, its layout and its map stay three parameters: a
// struct of them would be taken apart at once, since every clause speaks of `laid l`, of `s` and of a slot.)
#![tactic(auto)]

ghost use Rattle.std.specs.Prelude.{◌≡◌, ◌≤◌, eqb, length, [], ◌∷◌};
ghost use Rattle.lists.specs.Lists.{begins, all};
ghost use Rattle.refusals.specs.Refusals.{answering, outcome};
ghost use Rattle.shelves.specs.Layout.{base, map_of, end_of, heading};
ghost use Rattle.shelves.specs.Operations.{unsound};
ghost use Rattle.shelves.specs.Soundness.{is_sized, is_summed, sound};
ghost use Rattle.shelf_layout.specs.Laid.{laid};
ghost use Rattle.shelf_soundness.specs.Clauses.{Says, Ranged, Kept};

use refusals::{Fault, Refusal};
use shelf_layout::Layout;

mod forming;
mod parting;
mod placing;

// "a lent buffer of 525 to 65,536 bytes"
pub fn is_sized(s: &[u8], l: Layout) -> bool
    requires { l.pairs ≤ 65536 }
    ensures { result ≡ is_sized (laid l) s.now }
{
    (shelf_layout::base(l) <= s.len()) & (s.len() <= shelf_layout::MOST_SHELF)
}

// "`EDS`, a 16-bit version"
fn has_heading(s: &[u8], l: Layout) -> bool
    ensures { result ≡ begins (heading (laid l)) s.now }
{
    let mut front = [0u8; 5];
    shelf_layout::put_heading(&mut front, l);
    texts::begins(s, &front)
}

// All bytes are zero: their bits are gathered.
fn are_zero(s: &[u8]) -> bool
    ensures { result ≡ all (eqb 0) s.now }
{
    let mut found = 0u8;
    for b in s {
        found |= *b;
    }
    found == 0
}

// "The first equals the sum of the lengths", in a layout that has it.
fn is_summed(s: &[u8], l: Layout, end: usize) -> bool
    requires { (base (laid l) ≤ length s.now) × (l.pairs ≤ 65536) × (end ≡ end_of (laid l) s.now) }
    ensures { result ≡ is_summed (laid l) s.now }
{
    l.pairs < 21 || shelf_layout::base(l) + shelf_layout::held_figure(s) as usize == end
}

// What is left to ask where every kept text lies in the shelf.
fn is_kept_well(s: &[u8], l: Layout, map: u64, end: usize) -> bool
    requires { Ranged (laid l) s.now × (map ≡ map_of s.now) × (end ≡ end_of (laid l) s.now) × (end ≤ length s.now) }
    ensures { Says result (Kept (laid l) s.now) }
{
    parting::are_alone(s, l, map) && are_zero(&s[end..]) && forming::are_formed(s, l, map)
}

// One answer after another, and no `&&`: what an answer says is asked of the shelf by those behind it, and a proof
// sees that only where each has a line of its own.
pub fn is_sound(s: &[u8], l: Layout) -> bool
    requires { l.pairs ≤ 65536 }
    ensures { result ≡ sound (laid l) s.now }
{
    if !is_sized(s, l) {
        return false;
    }
    if !has_heading(s, l) {
        return false;
    }
    let map = shelf_layout::map_of(s);
    let end = shelf_layout::end_of(s, l);
    if s.len() < end {
        return false;
    }
    if !is_summed(s, l, end) {
        return false;
    }
    if !placing::are_placed(s, l, map, end) {
        return false;
    }
    is_kept_well(s, l, map, end)
}

// 19: passes a sound shelf.
pub fn check_sound(s: &[u8], l: Layout) -> Result<(), Refusal>
    requires { l.pairs ≤ 65536 }
    ensures { result ≡ outcome (answering (unsound (laid l) s.now ∷ [])) }
{
    if is_sound(s, l) {
        Ok(())
    } else {
        Err(Refusal {
            fault: Fault::UnsoundShelf,
            place: 0,
        })
    }
}
