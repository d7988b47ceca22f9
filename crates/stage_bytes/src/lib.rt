// Stage 8 (paper 01, "Levels"): every byte of every value is in the level. It promises the walk of
// `stage_walks` over the tokens from a place on.
#![tactic(auto)]

ghost use Rattle.std.specs.Prelude.{◌≡◌, drop};
ghost use Rattle.refusals.specs.Refusals.{outcome};
ghost use Rattle.values.specs.Tokens.{tokens_at};
ghost use Rattle.stage_walks.specs.Walks.{leveled};
ghost use Rattle.stage_bytes.specs.Orderly.{releases, may_break, orderly, service_apart, opening_orderly, all_orderly};

use characters::Characters;
use level_classes::{all_in_level, is_in_level, is_within};
use line_breaks::is_break;
use refusals::{Fault, Refusal};
use refusing::failed;
use scanner::{Lexed, lex};
use storing::is_service;

// A byte that releases the next one, unless it is released itself.
fn releases(c: Characters, b: u8) -> bool
    ensures { result ≡ releases c b }
{
    let within = (c.release == c.repetition) | (c.release == c.component);
    let separates = (c.release == c.element) | within;
    (b == c.release) & ((c.release != 32) & !((c.release == c.terminator) | separates))
}

// A line break may stand after these four bytes: after another one, or after a terminator that is not
// released. More than two release characters before it are left to the walk over the tokens. (The bytes stay parameters of
// their own, here and below: a struct of them would be made anew for each byte, and taken apart again.)
fn may_break(c: Characters, fourth: u8, third: u8, second: u8, before: u8) -> bool
    ensures { result ≡ may_break c fourth third second before }
{
    let unreleased = !releases(c, second) | (releases(c, third) & !releases(c, fourth));
    is_break(before) | ((before == c.terminator) & unreleased)
}

// A byte after these four is in the level, or a service character that is not released, or a line break
// that may stand there. Nothing branches, so that many bytes are asked at once.
fn is_orderly(
    c: Characters,
    level: u8,
    fourth: u8,
    third: u8,
    second: u8,
    before: u8,
    b: u8,
) -> bool
    ensures { result ≡ orderly c level fourth third second before b }
{
    let separates = is_service(c, b) & !releases(c, before);
    let breaks = is_break(b) & may_break(c, fourth, third, second, before);
    (is_within(level, b) & !is_break(b)) | (separates | breaks)
}

// Neither a line break nor the byte 0, which stands for what is before the first byte, is a service
// character.
fn service_apart(c: Characters) -> bool
    ensures { result ≡ service_apart c }
{
    !(is_service(c, 13) | (is_service(c, 10) | is_service(c, 0)))
}

// The first four bytes are orderly.
fn opening_is_orderly(c: Characters, level: u8, a: u8, b: u8, d: u8, e: u8) -> bool
    ensures { result ≡ opening_orderly c level a b d e }
{
    let first = is_orderly(c, level, 0, 0, 0, 0, a) & is_orderly(c, level, 0, 0, 0, a, b);
    let last = is_orderly(c, level, 0, 0, a, b, d) & is_orderly(c, level, 0, a, b, d, e);
    first & last
}

// All bytes from a place on are orderly. Fewer than four are left to the walk over the tokens. (`windows(5)` would have the
// same five bytes named by `w[0]` to `w[4]`.)
fn all_orderly(s: &[u8], c: Characters, level: u8, start: usize) -> bool
    ensures { result ≡ all_orderly c level (drop start s.now) }
{
    if s.len().saturating_sub(start) < 4 {
        return false;
    }
    let mut found = service_apart(c)
        & opening_is_orderly(c, level, s[start], s[start + 1], s[start + 2], s[start + 3]);
    let last = s.len() - 4;
    for at in start..last {
        found &= is_orderly(c, level, s[at], s[at + 1], s[at + 2], s[at + 3], s[at + 4]);
    }
    found
}

// The last byte is outside the level: a line break, or a terminator that no level has.
fn ends_outside(s: &[u8], level: u8) -> bool {
    s.last().is_some_and(|&b| !is_in_level(level, b))
}

// Where every byte is in the level, or all are orderly, every byte of a value is in the level: only the
// others need the walk over the tokens. The first question is idle where the last byte is outside the level.
pub fn in_level(s: &[u8], c: Characters, level: u8, start: usize) -> Result<(), Refusal>
    ensures { result ≡ outcome (leveled level (tokens_at c s.now start)) }
{
    if !ends_outside(s, level) && all_in_level(s, start, level) {
        return Ok(());
    }
    if all_orderly(s, c, level, start) {
        return Ok(());
    }
    first_outside(s, c, level, start)
}

// (How far a token goes no `for` would know.)
fn first_outside(s: &[u8], c: Characters, level: u8, start: usize) -> Result<(), Refusal>
    ensures { result ≡ outcome (leveled level (tokens_at c s.now start)) }
{
    let mut at = start;
    loop {
        match lex(s, c, at) {
            Lexed::Byte { byte, place, next } => {
                if !is_in_level(level, byte) {
                    return failed(Fault::OutsideLevel, place);
                }
                at = next;
            }
            Lexed::Separator { next, .. } | Lexed::Stray { next } => at = next,
            Lexed::End => return Ok(()),
        }
    }
}
