// Stage 22 (request 2026-08, "body doesn't match"): each message's segments between UNH and UNT go through the
// table, from left to right; the first place at which a walk stops answers. It promises what the walk
// of `structure_walks` answers, for a sound table.
#![tactic(auto)]

ghost use Rattle.std.specs.Prelude.{◌≤◌, ◌≡◌, true, length};
ghost use Rattle.values.specs.Tokens.{segments, tokens_at};
ghost use Rattle.segments.specs.declared.Kind.TheVariants.{Unh, Unt};
ghost use Rattle.segments.specs.Kinds.{is};
ghost use Rattle.message_tables.specs.Soundness.{is_sound};
ghost use Rattle.message_tables.specs.Structure.{structure_of};
ghost use Rattle.structure_walks.specs.Walks.{beginning, first_stop};
ghost use Rattle.stage_structure.specs.Stopping.{Says, stopped_at};

use characters::Characters;
use refusals::{Fault, Refusal};
use refusing::failed;
use scanner::segment_end;
use segments::Kind;
use table_walk::through_table;
use tags::kind_at;

// (`is_header` and `is_trailer` stay two: a `matches!` takes no kind from a parameter, and `Kind` derives no `==`.)
fn is_header(kind: Kind) -> bool
    ensures { result ≡ is Unh kind }
{
    matches!(kind, Kind::Unh)
}

fn is_trailer(kind: Kind) -> bool
    ensures { result ≡ is Unt kind }
{
    matches!(kind, Kind::Unt)
}

// Where what is left begins; nothing that is left begins at 0.
fn place_in(s: &[u8], c: Characters, at: usize) -> usize
    ensures { result ≡ beginning (segments (tokens_at c s.now at)) }
{
    if at < s.len() { at } else { 0 }
}

// The message of a UNH, behind which the input goes on at a place: where its UNT stands; or 22, at the place before
// which the walk stopped.
fn body_at(s: &[u8], c: Characters, table: &[u8], from: usize) -> Result<usize, Refusal>
    requires { is_sound table.now ≡ true }
    ensures { Says table.now c s.now from result }
{
    match through_table(s, c, table, from) {
        Err(next) => failed(Fault::UnmatchedBody, place_in(s, c, next.at)),
        Ok(next) => {
            if is_trailer(kind_at(s, c, next.at)) {
                Ok(next.at)
            } else {
                failed(Fault::UnmatchedBody, place_in(s, c, next.at))
            }
        }
    }
}

pub fn check(s: &[u8], c: Characters, table: &[u8], start: usize) -> Result<(), Refusal>
    requires { is_sound table.now ≡ true }
    ensures { result ≡ stopped_at (first_stop (structure_of table.now) (segments (tokens_at c s.now start))) }
{
    let mut at = start;
    // (No `for`: where a segment or a message ends only its bytes tell.)
    while at < s.len() {
        let next = segment_end(s, c, at);
        at = if is_header(kind_at(s, c, at)) {
            body_at(s, c, table, next)?
        } else {
            next
        };
    }
    Ok(())
}
