// The level and the version that the interchange header names, read where the header is spelled.
// It promises the level that `levels` reads in the header's trimmed contents, and the fifth byte that
// the version gives the normal form. That the segment is a header, and that its values keep the level,
// is left to others.
#![tactic(auto)]

ghost use Rattle.std.specs.Prelude.{◌≡◌, [], ◌∷◌, None, Some};
ghost use Rattle.lists.specs.Lists.{maybe};
ghost use Rattle.levels.specs.Levels.{level_named, level_of};
ghost use Rattle.values.specs.Tokens.{tokens_at};
ghost use Rattle.values.specs.Trimming.{contents_of};
ghost use Rattle.stages.specs.Contents.{normal_repetition};
ghost use Rattle.scanner.specs.Scan.{segment_at};
ghost use Rattle.elements.specs.Values.{value_in};
ghost use Rattle.stage_level.specs.Heading.{is_version};

use characters::Characters;
use elements::{component_at, element_at};
use trimmed_values::{is_text, is_unrepeated};

// The value that begins at a place is a version of ours: 4, or 1 or 2 where there is no repetition
// separator.
fn is_version(s: &[u8], c: Characters, at: usize) -> bool
    ensures { result ≡ is_version c (value_in (tokens_at c s.now at)) }
{
    is_text(s, c, at, b"4")
        || (c.repetition == b' ' && (is_text(s, c, at, b"1") || is_text(s, c, at, b"2")))
}

// The level that the value which begins at a place names. (It stays a number: the definition of `in_level` compares it with a byte's
// class.)
#[tactic(auto, unfolding(levels::specs::Levels::level_named, lists::specs::Lists::maybe))]
fn level_named(s: &[u8], c: Characters, at: usize) -> Option<u8>
    ensures { result ≡ maybe None Some (level_named (value_in (tokens_at c s.now at))) }
{
    if is_text(s, c, at, b"UNOA") {
        return Some(2);
    }
    is_text(s, c, at, b"UNOB").then_some(1)
}

// The level that the header which begins at `start` names: 2 for level A, 1 for level B, none where level
// or version are not ours, or element 1 has more than one repeat. The name is the first value of element
// 1, the version its second.
pub fn level_of(s: &[u8], c: Characters, start: usize) -> Option<u8>
    ensures { result ≡ maybe None Some (level_of c (segment_at c s.now start)) }
{
    let at = element_at(s, c, start, 1);
    if is_unrepeated(s, c, at) && is_version(s, c, component_at(s, c, at, 1)) {
        level_named(s, c, at)
    } else {
        None
    }
}

// The fifth byte of the normal form, by the version that the header which begins at `start` names. (It asks the same element as `level_of`:
// one function for both would take a closure for the test and one for the answer.)
pub fn normal_repetition(s: &[u8], c: Characters, start: usize) -> u8
    ensures { result ≡ normal_repetition (contents_of (segment_at c s.now start) ∷ []) }
{
    let at = element_at(s, c, start, 1);
    if is_unrepeated(s, c, at) && is_text(s, c, component_at(s, c, at, 1), b"4") {
        b'*'
    } else {
        b' '
    }
}
