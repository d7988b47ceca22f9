// Stage (4 5 6): stray releases, a body that ends inside a segment, tags. It promises the answer of
// the walk `worded` over the segments from a place on, and of one segment what that walk says of it. The stages after it are left to others.
#![tactic(auto)]

ghost use Rattle.std.specs.Prelude.{◌≡◌, length};
ghost use Rattle.refusals.specs.Refusals.{outcome};
ghost use Rattle.values.specs.Tokens.{tokens_at};
ghost use Rattle.stage_walks.specs.Walks.{worded};
ghost use Rattle.stage_segments.specs.Segment.{Passes};

use characters::Characters;
use refusals::{Fault, Refusal};
use refusing::failed;
use scanner::{Scanned, scan};
use tags::tag_holds;

// Where the segment after the one that begins at a place begins, or the first refusal of 4, 5 and 6 in that one: for a stray release
// character first, then for a missing terminator, then for its tag.
pub fn past_segment(s: &[u8], c: Characters, at: usize) -> Result<usize, Refusal>
    ensures { Passes c s.now at result }
{
    match scan(s, c, at) {
        Scanned::Ended { next } => {
            if tag_holds(s, c, at) {
                Ok(next)
            } else {
                failed(Fault::BrokenTag, at)
            }
        }
        Scanned::Stray { place } => failed(Fault::StrayRelease, place),
        Scanned::Unended => failed(Fault::UnendedSegment, s.len()),
    }
}

// The first refusal of 4, 5 and 6 from `start` on. (Where a segment ends no `for` would know.)
pub fn check(s: &[u8], c: Characters, start: usize) -> Result<(), Refusal>
    ensures { result ≡ outcome (worded (length s.now) (tokens_at c s.now start)) }
{
    let mut at = start;
    while at < s.len() {
        at = past_segment(s, c, at)?;
    }
    Ok(())
}
