// A text put on a sound shelf, all but its head: the summary, which is handed on by value, says where. Nothing is
// stored before the text is known to be new and to fit.
ghost use Rattle.std.specs.Prelude.{◌≡◌, true, false, ◌+◌, ◌≤◌, ◌<◌, length};
ghost use Rattle.std.proofs.Math.Option.{none};
ghost use Rattle.stages.specs.Stages.{refusal_of};
ghost use Rattle.operations.specs.Judge.{figures_of};
ghost use Rattle.shelves.specs.Layout.{version_two, base, end_of};
ghost use Rattle.shelves.specs.Soundness.{sound};
ghost use Rattle.shelves.specs.Operations.{lowest_free, copy_of};
ghost use Rattle.shelf_layout.specs.Laid.{laid};
ghost use Rattle.shelf_summary.specs.Steps.{Heads};
ghost use Rattle.shelf.specs.Parts.{stowed, PutsText, PutsForm};

use crate::finding;
use answers::Figures;
use refusals::{Fault, Refusal};
use refusing::failed;
use shelf_layout::Layout;
use shelf_summary::Placed;
use shelves::Summary;
use slot_map::SLOTS;

// The text behind the last one, and its pair.
fn store_text(s: &mut [u8], l: Layout, slot: usize, end: usize, form: &[u8])
    requires { (base (laid l) ≤ length s.old) × ((slot ≡ lowest_free (laid l) s.old) × (slot < 64)) × (end ≡ end_of (laid l) s.old) × (end + length form.now ≤ length s.old) }
    ensures { s.new ≡ stowed (laid l) s.old form.now }
{
    storing::copy(s, end, form, 0);
    shelf_layout::put_pair(s, l, slot, end, form.len());
}

// A text that is not kept yet.
fn put_new(s: &mut [u8], l: Layout, u: Summary, form: &[u8]) -> Result<Placed, Refusal>
    requires { (sound (laid l) s.old ≡ true) × ((21 ≤ l.pairs) × (l.pairs ≤ 65536)) × Heads s.old u × (copy_of (laid l) s.old form.now ≡ none) }
    ensures { PutsForm (laid l) s.old form.now result s.new }
{
    let slot = slot_map::lowest_free(u.map);
    if slot == SLOTS {
        return failed(Fault::NoFreeSlot, SLOTS);
    }
    let end = shelf_layout::base(l) + u.held as usize;
    if s.len() - end < form.len() {
        return failed(Fault::NoRoom, form.len());
    }
    store_text(s, l, slot, end, form);
    Ok(Placed::New {
        slot,
        size: form.len() as u32,
    })
}

fn put_form(s: &mut [u8], l: Layout, u: Summary, form: &[u8]) -> Result<Placed, Refusal>
    requires { (sound (laid l) s.old ≡ true) × ((21 ≤ l.pairs) × (l.pairs ≤ 65536)) × Heads s.old u }
    ensures { PutsForm (laid l) s.old form.now result s.new }
{
    match finding::copy_of(s, l, u.map, form) {
        Some(slot) => Ok(Placed::Copy(slot)),
        None => put_new(s, l, u, form),
    }
}

// An interchange that Judge accepted, of which it said this.
fn put_accepted(
    s: &mut [u8],
    l: Layout,
    u: Summary,
    input: &[u8],
    i: Figures,
) -> Result<Placed, Refusal>
    requires { ((sound (laid l) s.old ≡ true) × ((21 ≤ l.pairs) × (l.pairs ≤ 65536)) × Heads s.old u) × ((refusal_of input.now ≡ none) × (i ≡ figures_of input.now)) }
    ensures { PutsText (laid l) s.old input.now result s.new }
{
    let count = i.length;
    let mut form = [0u8; refusals::MOST_BYTES];
    let _ = normalise::store_form(&mut form, input, i);
    put_form(s, l, u, &form[..count])
}

pub fn put_text(s: &mut [u8], u: Summary, input: &[u8]) -> Result<Placed, Refusal>
    requires { (sound version_two s.old ≡ true) × Heads s.old u }
    ensures { PutsText version_two s.old input.now result s.new }
{
    let figures = judge::judge(input)?;
    put_accepted(s, shelf_layout::version_two(), u, input, figures)
}
