// The parties of an interchange: sender, recipient and control reference, which are UNB's elements 2, 3 and 5.
// One call says of each which part of the input spells it, after one Judge and in one pass over UNB. It promises
// what Locate's companion hands back for each, for any bytes.
#![tactic(auto)]

ghost use Rattle.std.specs.Prelude.{◌≡◌, false};
ghost use Rattle.values.specs.Tokens.{tokens_at};
ghost use Rattle.values.specs.Values.{ends_inside};
ghost use Rattle.elements.specs.Elements.{ElementAt, holds_byte};
ghost use Rattle.plain_runs.specs.Runs.{PlainRun};
ghost use Rattle.parties.specs.Parties.{parties_of, first_value};

use characters::Characters;
use elements::{holds_byte, piece_at, value_end};
use plain_runs::past_plain;
use refusals::Refusal;
use values::Span;

// Where each is spelled in the input, or zero bytes at its start.
#[derive(Clone, Copy)]
pub struct Parties {
    pub sender: Span,
    pub recipient: Span,
    pub reference: Span,
}

// Zero bytes at the input's start. (`part_of` of `locate` names the same at its one use.)
fn nothing() -> Span
    ensures { result ≡ record { offset = 0; length = 0 } }
{
    Span {
        offset: 0,
        length: 0,
    }
}

// Where the next element begins, in the segment that goes on at `from`. Most bytes are passed one by one; what
// may end the segment, or take the next byte with it, is left to `piece_at`.
fn next_element(s: &[u8], c: Characters, from: usize) -> usize
    ensures { ElementAt c s.now from 1 result }
{
    for at in from..s.len() {
        let b = s[at];
        if (b == c.terminator) | (b == c.release) {
            return piece_at(s, c, at, 1, 1);
        }
        if b == c.element {
            return at + 1;
        }
    }
    piece_at(s, c, from.max(s.len()), 1, 1)
}

// Where the element after the next begins.
fn element_after(s: &[u8], c: Characters, from: usize) -> usize
    ensures { ElementAt c s.now from 2 result }
{
    next_element(s, c, next_element(s, c, from))
}

// Trimming keeps the element that begins at `from`, which is not the tag, with plain bytes up to `at`.
fn is_kept(s: &[u8], c: Characters, from: usize, at: usize) -> bool
    requires { PlainRun c s.now from at }
    ensures { result ≡ holds_byte 0 (tokens_at c s.now from) }
{
    from < at || holds_byte(s, c, from, 0)
}

// The first value of the element that begins at `from`, which is not the tag, with plain bytes up to `at`;
// nothing where trimming takes the element away. The input may not end inside a segment.
fn first_value(s: &[u8], c: Characters, from: usize, at: usize) -> Span
    requires { (ends_inside (tokens_at c s.now from) ≡ false) × PlainRun c s.now from at }
    ensures { result ≡ first_value (tokens_at c s.now from) }
{
    if !is_kept(s, c, from, at) {
        return nothing();
    }
    let end = value_end(s, c, at);
    let length = end - from;
    Span {
        offset: from,
        length,
    }
}

// The parties of an input that Judge accepts.
pub fn parties_of(s: &[u8]) -> Result<Parties, Refusal>
    ensures { result ≡ parties_of s.now }
{
    let figures = judge::judge(s)?;
    let c = figures.characters;
    let second = element_after(s, c, stage_opening::body_start(s));
    let sender = past_plain(s, c, second);
    let third = next_element(s, c, sender);
    let recipient = past_plain(s, c, third);
    let fifth = element_after(s, c, recipient);
    let reference = past_plain(s, c, fifth);
    Ok(Parties {
        sender: first_value(s, c, second, sender),
        recipient: first_value(s, c, third, recipient),
        reference: first_value(s, c, fifth, reference),
    })
}
