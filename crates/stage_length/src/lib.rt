// How long the contents of a body are, spelled as the normal form spells them (paper 01, "Normal
// form"), without storing a byte. It promises the length of what `emission_laws` gives.
#![tactic(auto)]

ghost use Rattle.std.specs.Prelude.{true, ◌≡◌, ◌≤◌, length};
ghost use Rattle.stages.specs.Contents.{normal_characters};
ghost use Rattle.values.specs.Tokens.{tokens_at};
ghost use Rattle.emission_laws.specs.Emission.{nothing, emitted};
ghost use Rattle.verbatim.specs.Verbatim.{faultless, visible};
ghost use Rattle.refusals.specs.Limits.{most_bytes};

use characters::Characters;
use normal_form_text::put_contents;
use storing::Measured;

// How long the contents of the body that begins at `start` are, in a normal form with this fifth byte.
pub fn measured(s: &[u8], c: Characters, start: usize, repetition: u8) -> usize
    requires { (length s.now ≤ most_bytes) × (faultless (tokens_at c s.now start) ≡ true) × (visible (tokens_at c s.now start) ≡ true) × (32 ≤ repetition) }
    ensures { result ≡ length (emitted (normal_characters c.mark repetition) nothing (tokens_at c s.now start)) }
{
    put_contents::<Measured>(&mut [], 0, s, c, start, repetition)
}
