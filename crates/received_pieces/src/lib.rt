// A value or an element of a received input, where it is spelled, written again under other service characters (request
// 2026-11): the tokens of the piece without what ends it go through the steps of `held_separators`, which trim it. Its bytes, which a
// sink stores in a lent buffer or measures alone, and how many values trimming leaves in an element. It promises what
// `emission_laws` gives for these tokens; that they are the tokens of the trimmed piece is proved in proofs/.
#![tactic(auto)]

ghost use Rattle.std.specs.Prelude.{◌≡◌, ◌+◌, ◌*◌, ◌≤◌, length};
ghost use Rattle.values.specs.Tokens.{tokens_at};
ghost use Rattle.held_separators.specs.Putting.{Countable, Fits, Puts};
ghost use Rattle.read_counts.specs.Tally.{table_of};
ghost use Rattle.refusals.specs.Limits.{most_bytes};
ghost use Rattle.received_pieces.specs.Pieces.{piece_of, NextIn, ended};

use characters::Characters;
use emission_laws::Measure;
use held_separators::{put_separator, put_value_byte};
use read_counts::start_of_list;
use scanner::{Lexed, lex};
use storing::Sink;

// What is next in a piece: a byte of a value, a separator inside it, or its end. (Three cases, as the scanner's `Lexed` has them:
// an `Option` of two would put a `Some` round each.)
#[derive(Clone, Copy)]
pub enum Within {
    Byte { byte: u8, next: usize },
    Separator { rank: u8, next: usize },
    Ended,
}

// A separator of this rank or a lower one ends the piece, and so does the end of the input. (The scanner tells the next place, so
// that no `for` can count it, here and below.)
fn next_in(s: &[u8], d: Characters, rank: u8, from: usize) -> Within
    ensures { NextIn d s.now rank from result }
{
    let mut at = from;
    loop {
        match lex(s, d, at) {
            Lexed::Byte { byte, next, .. } => {
                return Within::Byte { byte, next };
            }
            Lexed::Separator { rank: found, next } => {
                if found <= rank {
                    return Within::Ended;
                }
                return Within::Separator { rank: found, next };
            }
            Lexed::Stray { next } => {
                at = next;
            }
            Lexed::End => {
                return Within::Ended;
            }
        }
    }
}

// ---- its bytes

// Past the piece that begins at a place.
pub fn put_piece<S: Sink>(
    buffer: &mut [u8],
    m: Measure,
    c: Characters,
    s: &[u8],
    d: Characters,
    rank: u8,
    from: usize,
) -> Measure
    requires { (Fits S.room c buffer.old m (piece_of rank (tokens_at d s.now from))) × (Countable m (length s.now)) }
    ensures { Puts S.holds c buffer.old m (piece_of rank (tokens_at d s.now from)) buffer.new result }
{
    let mut n = m;
    let mut at = from;
    loop {
        match next_in(s, d, rank, at) {
            Within::Byte { byte, next } => {
                n = put_value_byte::<S>(buffer, n, c, byte);
                at = next;
            }
            Within::Separator { rank: found, next } => {
                n = put_separator::<S>(buffer, n, c, found);
                at = next;
            }
            Within::Ended => {
                return n;
            }
        }
    }
}

// ---- counting

// How many values the element that begins at a place has in the contents.
pub fn values_in(s: &[u8], d: Characters, from: usize) -> usize
    requires { length s.now ≤ most_bytes }
    ensures { (3 * result ≡ length (table_of (ended (piece_of 1 (tokens_at d s.now from))))) × (result ≤ length s.now + 1) }
{
    let mut l = start_of_list();
    let mut at = from;
    loop {
        match next_in(s, d, 1, at) {
            Within::Byte { next, .. } => {
                l = read_counts::with_byte(l);
                at = next;
            }
            Within::Separator { rank, next } => {
                l = read_counts::with_separator(l, rank);
                at = next;
            }
            Within::Ended => {
                return read_counts::with_separator(l, 0).records;
            }
        }
    }
}
