// Whether the kept texts are normal forms.
ghost use Rattle.std.proofs.Math.Option.{none};
ghost use Rattle.std.specs.Prelude.{◌≡◌, ◌<◌};
ghost use Rattle.stages.specs.Stages.{refusal_of};
ghost use Rattle.operations.specs.Judge.{figures_of};
ghost use Rattle.own_form_laws.specs.OwnForm.{begins_normal};
ghost use Rattle.shelves.specs.Layout.{map_of};
ghost use Rattle.shelves.specs.Soundness.{is_normal_form};
ghost use Rattle.shelf_layout.specs.Laid.{laid};
ghost use Rattle.shelf_soundness.specs.Clauses.{Says, Ranged, formed, Formed};

use answers::Figures;
use shelf_layout::{Layout, text_of};
use slot_map::{SLOTS, is_occupied};

// A text that Judge accepted, and of which it said this, begins with the advice of its normal form.
fn begins_normal(text: &[u8], i: Figures) -> bool
    requires { (refusal_of text.now ≡ none) × (i ≡ figures_of text.now) }
    ensures { result ≡ begins_normal text.now }
{
    let mut advice = [0u8; 9];
    storing::put_advice(&mut advice, normalise::form_characters(text, i));
    texts::begins(text, &advice)
}

// A text that is accepted, has its normal form's length and begins as that does is its own normal form.
fn is_normal_form(text: &[u8]) -> bool
    ensures { result ≡ is_normal_form text.now }
{
    match judge::judge(text) {
        Ok(i) => i.length == text.len() && begins_normal(text, i),
        Err(_) => false,
    }
}

fn is_formed(s: &[u8], l: Layout, map: u64, slot: usize) -> bool
    requires { Ranged (laid l) s.now × (map ≡ map_of s.now) × (slot < 64) }
    ensures { result ≡ formed (laid l) s.now slot }
{
    !is_occupied(map, slot) || is_normal_form(text_of(s, l, slot))
}

pub fn are_formed(s: &[u8], l: Layout, map: u64) -> bool
    requires { Ranged (laid l) s.now × (map ≡ map_of s.now) }
    ensures { Says result (Formed (laid l) s.now) }
{
    (0..SLOTS).all(|slot| is_formed(s, l, map, slot))
}
