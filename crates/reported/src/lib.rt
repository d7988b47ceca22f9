// Whether a received interchange can be acknowledged (request 2026-11), and what is taken over from it: the places at which
// values and elements of its UNB are spelled, and the action code. One run of Judge's stages; nothing is read a second way.
// It promises refusal 23 of `acknowledgements`, and the pieces that these places begin.
#![tactic(auto)]

ghost use Rattle.std.specs.Prelude.{◌≡◌, true};
ghost use Rattle.std.proofs.Math.Option.{none};
ghost use Rattle.refusals.specs.Refusals.{answering};
ghost use Rattle.stages.specs.Stages.{stages_in, refusal_of};
ghost use Rattle.stage_opening.specs.Runs.{found_by};
ghost use Rattle.acknowledgements.specs.Received.{has_action_code};
ghost use Rattle.reported.specs.Reporting.{standing_by, standing_in, standing_of, Reports};

use acknowledgement_parts::Received;
use characters::Characters;
use control_fields::{field_at, is_reference};
use elements::{component_at, element_at, holds_byte};
use stage_opening::Found;

// Where the action codes stand among the words of an acknowledgement.
const ACCEPTED: u32 = 18;

const REFUSED: u32 = 17;

// What Judge's stages say of an interchange that is not refused by another number than 10, 11 and 12: the service characters, where
// the body begins, and the action code.
#[derive(Clone, Copy)]
pub struct Standing {
    pub characters: Characters,
    pub start: usize,
    pub action: u32,
}

fn with_action(found: Found, action: u32) -> Standing
    ensures { result ≡ standing_by found action }
{
    Standing {
        characters: found.characters,
        start: found.start,
        action,
    }
}

// Of an input that 1 to 12 passed.
fn standing_passed(s: &[u8], found: Found) -> Option<Standing>
    requires { (answering (stages_in s.now 1 12) ≡ none) × (found ≡ found_by 12 s.now) }
    ensures { result ≡ standing_of s.now }
{
    judge::judge_length(s, found).ok()?;
    Some(with_action(found, ACCEPTED))
}

// Of an input that 1 to 9 passed.
fn standing_after(s: &[u8], found: Found) -> Option<Standing>
    requires { (answering (stages_in s.now 1 9) ≡ none) × (found ≡ found_by 9 s.now) }
    ensures { result ≡ standing_of s.now }
{
    match stage_control::check(s, found.characters, found.start) {
        Err(_) => Some(with_action(found, REFUSED)),
        Ok(()) => standing_passed(s, found),
    }
}

// One stage after the other.
fn standing_in_turn(s: &[u8]) -> Option<Standing>
    ensures { result ≡ standing_of s.now }
{
    standing_after(s, judge::stages_to_9(s).ok()?)
}

// Most interchanges are accepted, and Judge's quick way finds that.
fn standing_of(s: &[u8]) -> Option<Standing>
    ensures { result ≡ standing_of s.now }
{
    match judge::quickly(s) {
        Some(Ok(found)) => standing_passed(s, found),
        Some(Err(_)) | None => standing_in_turn(s),
    }
}

// What is taken over from the UNB that begins the body, unless its reference is not as paper 01 asks, or its sender or
// recipient is one empty value.
fn taken_from(s: &[u8], standing: Standing) -> Option<Received>
    requires { (has_action_code (refusal_of s.now) ≡ true) × (standing ≡ standing_in s.now) }
    ensures { Reports s.now result }
{
    let Standing {
        characters: c,
        start,
        action,
    } = standing;
    let reference = element_at(s, c, start, 5);
    let sender = element_at(s, c, start, 2);
    let recipient = element_at(s, c, start, 3);
    if !is_reference(field_at(s, c, reference))
        || !holds_byte(s, c, sender, 1)
        || !holds_byte(s, c, recipient, 1)
    {
        return None;
    }
    let level = element_at(s, c, start, 1);
    Some(Received {
        characters: c,
        level,
        version: component_at(s, c, level, 1),
        sender,
        recipient,
        reference,
        action,
    })
}

// What the report on any bytes is made of, where one is made.
pub fn report_of(s: &[u8]) -> Option<Received>
    ensures { Reports s.now result }
{
    taken_from(s, standing_of(s)?)
}
