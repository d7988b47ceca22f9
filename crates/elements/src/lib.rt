// Pieces where they are spelled: at which place a segment, an element of a segment, a repeat of an
// element or a component of a repeat begins, whether a byte of a value stands in a piece, and a value
// byte by byte up to its end. It promises the pieces into which `values` cuts the larger piece, by their
// numbers. What trimming leaves of them is left to `trimmed_values`. (How far a token goes no `for` would know, so that each walk
// over tokens is a `loop`.)
#![tactic(auto)]

ghost use Rattle.std.specs.Prelude.{◌+◌, ◌≤◌, ◌≡◌, length};
ghost use Rattle.values.specs.Tokens.{tokens_at};
ghost use Rattle.elements.specs.Elements.{PieceAt, SegmentAt, ElementAt, RepeatAt, ComponentAt, holds_byte};
ghost use Rattle.elements.specs.Sixteen.{weight, Separators, GoesOn};
ghost use Rattle.elements.specs.Values.{EndsAt, NextAt};

use characters::Characters;
use scanner::{Lexed, lex};

// Where the piece of that number begins, of those that separators of this rank end, in the larger piece
// that begins at `from`, which a separator of a lower rank ends. The input's length where there is none. (A `for` over
// the pieces would need the loop over a piece's bytes inside it. The length stays for none, here and below: `PieceAt` and its kin say so,
// and who reads on there finds an empty piece.)
pub fn piece_at(s: &[u8], c: Characters, from: usize, rank: u8, number: usize) -> usize
    ensures { PieceAt c s.now from rank number result }
{
    let mut at = from;
    let mut left = number;
    while 0 < left {
        match lex(s, c, at) {
            Lexed::Byte { next, .. } => {
                at = next;
            }
            Lexed::Separator { rank: found, next } => {
                if found < rank {
                    return s.len();
                }
                at = next;
                if found == rank {
                    left -= 1;
                    continue;
                }
            }
            Lexed::Stray { next } => {
                at = next;
            }
            Lexed::End => {
                return s.len();
            }
        }
    }
    at
}

// Where the segment of that number begins, from 0 at `start`. The input's length where there are fewer.
pub fn segment_at(s: &[u8], c: Characters, start: usize, number: usize) -> usize
    ensures { SegmentAt c s.now start number result }
{
    piece_at(s, c, start, 0, number)
}

// What a byte adds to the sum of sixteen: an element separator 1, and a byte that may end the segment or
// take the next one with it 15.
fn weight(c: Characters, b: u8) -> u8
    ensures { result ≡ weight c b }
{
    if (b == c.terminator) | (b == c.release) {
        return 15;
    }
    if b == c.element { 1 } else { 0 }
}

// How many of sixteen bytes are element separators, if fewer than 15; else nothing is told. It never ends
// early, so that all are asked at once.
fn separators(s: &[u8], c: Characters, from: usize) -> u8
    requires { from + 16 ≤ length s.now }
    ensures { Separators c s.now from (from + 16) result }
{
    let mut sum: u8 = 0;
    for number in 0..16 {
        sum += weight(c, s[from + number]);
    }
    sum
}

// The place at which the search for an element goes on, and the number that the element has from there.
#[derive(Clone, Copy)]
struct Search {
    at: usize,
    left: usize,
}

// The search past as many times sixteen bytes as it can be told of that they only pass elements. (A `for` by sixteen
// would not tell the place of the last few.)
fn past_sixteens(s: &[u8], c: Characters, from: usize, position: usize) -> Search
    ensures { GoesOn c s.now from position result }
{
    let mut at = from;
    let mut left = position;
    while at < s.len() {
        if s.len() - at < 16 {
            return Search { at, left };
        }
        let passed = separators(s, c, at);
        if 15 <= passed || left <= usize::from(passed) {
            return Search { at, left };
        }
        at += 16;
        left -= usize::from(passed);
    }
    Search { at, left }
}

// Where the element of that number begins in the segment that begins at `from`; 0 is the tag.
// The input's length where the segment has no such element.
pub fn element_at(s: &[u8], c: Characters, from: usize, position: usize) -> usize
    ensures { ElementAt c s.now from position result }
{
    let search = past_sixteens(s, c, from, position);
    piece_at(s, c, search.at, 1, search.left)
}

// Where the repeat of that number begins in the element that begins at `from`. The input's length where
// the element has no such repeat.
pub fn repeat_at(s: &[u8], c: Characters, from: usize, number: usize) -> usize
    ensures { RepeatAt c s.now from number result }
{
    piece_at(s, c, from, 2, number)
}

// Where the component of that number begins in the repeat that begins at `from`. The input's length
// where the repeat has no such component.
pub fn component_at(s: &[u8], c: Characters, from: usize, number: usize) -> usize
    ensures { ComponentAt c s.now from number result }
{
    piece_at(s, c, from, 3, number)
}

// A byte of a value stands from here on, before a separator of this rank or a lower one.
pub fn holds_byte(s: &[u8], c: Characters, from: usize, rank: u8) -> bool
    ensures { result ≡ holds_byte rank (tokens_at c s.now from) }
{
    let mut at = from;
    loop {
        match lex(s, c, at) {
            Lexed::Byte { .. } => {
                return true;
            }
            Lexed::Separator { rank: found, next } => {
                if found <= rank {
                    return false;
                }
                at = next;
            }
            Lexed::Stray { next } => {
                at = next;
            }
            Lexed::End => {
                return false;
            }
        }
    }
}

// What is next in a value: a byte and the place to read on, or the place of what ends the value. (As `Err(place)` the end of a
// value would be an error, and `Ok((byte, next))` would name neither.)
#[derive(Clone, Copy)]
pub enum NextByte {
    Byte { byte: u8, next: usize },
    Ended { place: usize },
}

pub fn byte_at(s: &[u8], c: Characters, from: usize) -> NextByte
    ensures { NextAt c s.now from result }
{
    let mut at = from;
    loop {
        match lex(s, c, at) {
            Lexed::Byte { byte, next, .. } => {
                return NextByte::Byte { byte, next };
            }
            Lexed::Separator { .. } => {
                return NextByte::Ended { place: at };
            }
            Lexed::Stray { next } => {
                at = next;
            }
            Lexed::End => {
                return NextByte::Ended { place: at };
            }
        }
    }
}

// Where the separator stands that ends the value which begins at `from`; the input's end where none does.
pub fn value_end(s: &[u8], c: Characters, from: usize) -> usize
    ensures { EndsAt c s.now from result }
{
    let mut at = from;
    loop {
        match byte_at(s, c, at) {
            NextByte::Byte { next, .. } => {
                at = next;
            }
            NextByte::Ended { place } => {
                return place;
            }
        }
    }
}
