// Normalise (paper 01, "Operations"): the normal form of an accepted interchange in a lent buffer.
// It promises, for any bytes, the answer that `operations` gives and every byte of the buffer at
// exit: bytes beyond the normal form, and all of them where something is refused, keep their values.
// The normal form is measured before it is stored only where it might be too long, for 13 or for the
// buffer; elsewhere its length is where storing ends.
#![tactic(auto)]

ghost use Rattle.std.specs.Prelude.{◌≡◌, ◌≤◌, length};
ghost use Rattle.std.proofs.Math.Option.{none};
ghost use Rattle.characters.specs.Characters.{characters_of};
ghost use Rattle.stages.specs.Contents.{normal_form};
ghost use Rattle.stages.specs.Stages.{refusal_of};
ghost use Rattle.operations.specs.Judge.{figures_of};
ghost use Rattle.contracts.specs.Promises.{Normalises};
ghost use Rattle.judge.specs.Judging.{Passed};
ghost use Rattle.normal_form_laws.specs.Forms.{form_characters};

use answers::Figures;
use characters::Characters;
use normal_form_text::put_contents;
use refusals::{Fault, Refusal};
use refusing::failed;
use stage_opening::Found;
use storing::Stored;

// The service characters of the normal form of an accepted interchange that uses these: the mark is its
// own, the fifth byte its version's.
fn spelled_with(s: &[u8], c: Characters) -> Characters
    requires { (refusal_of s.now ≡ none) × (c ≡ characters_of s.now) }
    ensures { result ≡ form_characters s.now }
{
    let repetition = stage_level::normal_repetition(s, c, stage_opening::body_start(s));
    verbatim::normal_characters(c.mark, repetition)
}

// The same of an interchange that Judge accepted, of which it said this.
pub fn form_characters(s: &[u8], i: Figures) -> Characters
    requires { (refusal_of s.now ≡ none) × (i ≡ figures_of s.now) }
    ensures { result ≡ form_characters s.now }
{
    spelled_with(s, i.characters)
}

// Stores the normal form of an accepted interchange that uses these service characters: its advice and
// its contents. How long it is.
fn put_form(buffer: &mut [u8], s: &[u8], c: Characters) -> usize
    requires { (refusal_of s.now ≡ none) × (c ≡ characters_of s.now) × (length (normal_form s.now) ≤ length buffer.old) }
    ensures { Normalises buffer.old s.now (Ok result) buffer.new }
{
    let n = spelled_with(s, c);
    storing::put_advice(buffer, n);
    put_contents::<Stored>(buffer, 9, s, c, stage_opening::body_start(s), n.repetition)
}

// The same of an interchange that Judge accepted, of which it said this.
pub fn store_form(buffer: &mut [u8], s: &[u8], i: Figures) -> Result<usize, Refusal>
    requires { (refusal_of s.now ≡ none) × (i ≡ figures_of s.now) }
    ensures { Normalises buffer.old s.now result buffer.new }
{
    if buffer.len() < i.length {
        return failed(Fault::BufferShort, i.length);
    }
    Ok(put_form(buffer, s, i.characters))
}

// The same of an input that 1 to 12 pass: 13 is asked before.
fn store_measured(buffer: &mut [u8], s: &[u8], found: Found) -> Result<usize, Refusal>
    requires { Passed s.now found }
    ensures { Normalises buffer.old s.now result buffer.new }
{
    let figures = judge::judge_length(s, found)?;
    store_form(buffer, s, figures)
}

// The same; 13 and 14 are asked only where a bound does not tell that they pass.
pub fn store_found(buffer: &mut [u8], s: &[u8], found: Found) -> Result<usize, Refusal>
    requires { Passed s.now found }
    ensures { Normalises buffer.old s.now result buffer.new }
{
    let most = judge::most_length(s, found);
    if refusals::MOST_BYTES < most || buffer.len() < most {
        return store_measured(buffer, s, found);
    }
    Ok(put_form(buffer, s, found.characters))
}

pub fn normalise(buffer: &mut [u8], s: &[u8]) -> Result<usize, Refusal>
    ensures { Normalises buffer.old s.now result buffer.new }
{
    let found = judge::stages_to_12(s)?;
    store_found(buffer, s, found)
}
