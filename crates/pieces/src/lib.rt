// The cut of a mailbox file (request 2026-02): where the first piece of what is left of a file ends, and why
// there. One walk over the segments, which stops at the first UNZ or at the first fault. It promises the
// definitions of `mailbox_files`. What Judge says of the piece is left to others.
#![tactic(auto)]

ghost use Rattle.std.specs.Prelude.{◌≡◌};
ghost use Rattle.mailbox_files.specs.Pieces.{piece_end};
ghost use Rattle.pieces.specs.Walk.{ending_of, ending_from, end_in, end_from, is_unz};

use characters::Characters;
use refusals::Refusal;
use segments::Kind;
use stage_segments::past_segment;
use tags::kind_at;

// How a piece ends: after its UNZ and the breaks behind that, at this place; or with the rest of the file, where
// the cutting meets a fault 2 to 6 before a UNZ, or the file's end. (A `Result<Option<usize>, Refusal>` would hold the same, and call a piece
// that is counted as any other an error.)
#[derive(Clone, Copy)]
pub enum Ending {
    AfterUnz(usize),
    Stopped(Refusal),
    FileEnd,
}

fn is_unz(kind: Kind) -> bool
    ensures { result ≡ is_unz kind }
{
    matches!(kind, Kind::Unz)
}

// How the piece ends of which a segment begins at `start`. (Where a segment ends no `for` would know.)
fn unz_ending(rest: &[u8], c: Characters, start: usize) -> Ending
    ensures { result ≡ ending_from c rest.now start }
{
    let mut at = start;
    while at < rest.len() {
        match past_segment(rest, c, at) {
            Err(refusal) => {
                return Ending::Stopped(refusal);
            }
            Ok(next) => {
                if is_unz(kind_at(rest, c, at)) {
                    return Ending::AfterUnz(next);
                }
                at = next;
            }
        }
    }
    Ending::FileEnd
}

// How the first piece of the rest of a file ends. No bytes have no piece: the file's end.
pub fn first_piece(rest: &[u8]) -> Ending
    ensures { result ≡ ending_of rest.now }
{
    if rest.len() == 0 {
        return Ending::FileEnd;
    }
    match stage_opening::opening_of(rest) {
        Err(refusal) => Ending::Stopped(refusal),
        Ok(found) => unz_ending(rest, found.characters, found.start),
    }
}

// Where a piece ends that begins the rest: after its UNZ, or with the rest.
pub fn end_in(rest: &[u8], ending: Ending) -> usize
    ensures { result ≡ end_in rest.now ending }
{
    match ending {
        Ending::AfterUnz(end) => end,
        Ending::Stopped(_) | Ending::FileEnd => rest.len(),
    }
}

// The place behind the first UNZ from a segment's start on, and behind its breaks; the end of the rest
// where a segment before it, or it, meets a fault 4 to 6, or where there is none. (`end_in(rest, first_piece(rest))` would do without it; the
// definition `end_from` is what it promises.)
fn unz_end(rest: &[u8], c: Characters, start: usize) -> usize
    ensures { result ≡ end_from c rest.now start }
{
    end_in(rest, unz_ending(rest, c, start))
}

// Where the first piece of the rest of a file ends.
pub fn piece_end(rest: &[u8]) -> usize
    ensures { result ≡ piece_end rest.now }
{
    match stage_opening::opening_of(rest) {
        Err(_) => rest.len(),
        Ok(found) => unz_end(rest, found.characters, found.start),
    }
}
