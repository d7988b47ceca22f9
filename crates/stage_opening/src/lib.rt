// The opening of an input (paper 01, "Service characters"; refusals 2 and 3): which service characters
// it uses, whether they are usable, and where its body begins. It promises what these two stages of
// Judge answer: the refusal, or what they found, which every run of stages hands on. What the body
// holds is left to others.
#![tactic(auto)]

ghost use Rattle.std.specs.Prelude.{◌≡◌, not, ◌||◌, [], ◌∷◌, ◌++◌, ◌+◌, get_or, drop, if◌then◌else◌};
ghost use Rattle.lists.specs.Lists.{text, begins, member, all_differ, all};
ghost use Rattle.characters.specs.Characters.{separates, usable, advised, plus_characters, star_characters, characters_of, body_start, bad_advice, opens};
ghost use Rattle.stage_opening.specs.Optional.{optional};
ghost use Rattle.stage_opening.specs.Runs.{progress};

use characters::Characters;
use line_breaks::after_breaks;
use refusals::{Fault, Refusal};
use refusing::failed;
use segments::Walk;

// ---- when six bytes are usable

// A byte that may be a separator, a terminator or a release character.
fn may_separate(b: u8) -> bool
    ensures { result ≡ separates b }
{
    (b.is_ascii_graphic() & !b.is_ascii_alphanumeric()) | (b == 28) | (b == 29) | (b == 31)
}

// The first differs from each of the others.
fn differs(x: u8, a: u8, b: u8, c: u8) -> bool
    ensures { result ≡ not (member x (a ∷ b ∷ c ∷ [])) }
{
    !((x == a) | (x == b) | (x == c))
}

// The repetition separator and the release character, of which each may be none, may separate. (A space stays for none: the advice spells it
// so, and C is handed the six bytes as they are.)
fn optional_separate(c: Characters) -> bool
    ensures { result ≡ all separates (optional c) }
{
    let repetition = (c.repetition == b' ') | may_separate(c.repetition);
    repetition & ((c.release == b' ') | may_separate(c.release))
}

// The two differ, where both are there.
fn optional_differ(c: Characters) -> bool
    ensures { result ≡ all_differ (optional c) }
{
    (c.repetition == b' ') | (c.release == b' ') | (c.repetition != c.release)
}

// A byte differs from those of the two that are there.
fn is_apart(c: Characters, x: u8) -> bool
    ensures { result ≡ not (member x (optional c)) }
{
    let repetition = (c.repetition == b' ') | (x != c.repetition);
    repetition & ((c.release == b' ') | (x != c.release))
}

pub fn is_usable(c: Characters) -> bool
    ensures { result ≡ usable c }
{
    let marked = (c.mark == b'.') | (c.mark == b',');
    let separators = may_separate(c.component)
        & may_separate(c.element)
        & may_separate(c.terminator)
        & optional_separate(c);
    let mark_differs = differs(c.mark, c.component, c.element, c.terminator) & is_apart(c, c.mark);
    let component_differs = (c.component != c.element)
        & (c.component != c.terminator)
        & is_apart(c, c.component);
    let element_differs = (c.element != c.terminator) & is_apart(c, c.element);
    let others_differ = is_apart(c, c.terminator) & optional_differ(c);
    marked & separators & mark_differs & component_differs & element_differs & others_differ
}

// ---- the opening, with and without advice

// The byte at a place, or 0 where there is none.
fn byte_at(s: &[u8], at: usize) -> u8
    ensures { result ≡ get_or s.now at 0 }
{
    s.get(at).copied().unwrap_or(0)
}

// The byte stands so many bytes after a place.
fn byte_stands(s: &[u8], at: usize, after: usize, b: u8) -> bool
    ensures { result ≡ begins (b ∷ []) (drop (at + after) s.now) }
{
    at < s.len() && (after < s.len() - at && b == s[at + after])
}

// `UN` and a third byte stand at a place.
fn tag_stands(s: &[u8], at: usize, third: u8) -> bool
    ensures { result ≡ begins (text "UN" ++ third ∷ []) (drop at s.now) }
{
    byte_stands(s, at, 0, b'U') & byte_stands(s, at, 1, b'N') & byte_stands(s, at, 2, third)
}

fn is_advised(s: &[u8]) -> bool
    ensures { result ≡ advised s.now }
{
    tag_stands(s, 0, b'A')
}

// Level and version follow `UNB+` as in version 4.
fn names_version4(s: &[u8]) -> bool
    ensures { result ≡ (begins (text "UNOA:4") (drop 4 s.now) || begins (text "UNOB:4") (drop 4 s.now)) }
{
    let level = byte_stands(s, 4, 3, b'A') | byte_stands(s, 4, 3, b'B');
    tag_stands(s, 4, b'O') & level & byte_stands(s, 4, 4, b':') & byte_stands(s, 4, 5, b'4')
}

// What an input without advice uses that begins `UNB+`.
#[tactic(auto, unfolding(characters::specs::Characters::plus_characters, characters::specs::Characters::star_characters, characters::specs::Characters::six_bytes))]
fn plus_characters(version4: bool) -> Characters
    ensures { result ≡ (if version4 then star_characters else plus_characters) }
{
    Characters {
        component: b':',
        element: b'+',
        mark: b'.',
        release: b'?',
        repetition: if version4 { b'*' } else { b' ' },
        terminator: b'\'',
    }
}

fn characters_of(s: &[u8]) -> Characters
    ensures { result ≡ characters_of s.now }
{
    if is_advised(s) {
        return Characters {
            component: byte_at(s, 3),
            element: byte_at(s, 4),
            mark: byte_at(s, 5),
            release: byte_at(s, 6),
            repetition: byte_at(s, 7),
            terminator: byte_at(s, 8),
        };
    }
    if tag_stands(s, 0, b'B') & byte_stands(s, 0, 3, b'+') {
        return plus_characters(names_version4(s));
    }
    Characters {
        component: 31,
        element: 29,
        mark: b'.',
        release: b' ',
        repetition: b' ',
        terminator: 28,
    }
}

// The body follows the advice and the line breaks after it, or is the whole input.
pub fn body_start(s: &[u8]) -> usize
    ensures { result ≡ body_start s.now }
{
    if is_advised(s) { after_breaks(s, 9) } else { 0 }
}

fn has_bad_advice(s: &[u8]) -> bool
    ensures { result ≡ bad_advice s.now }
{
    is_advised(s) & ((s.len() < 9) | !is_usable(characters_of(s)))
}

// The body begins `UNB` and the element separator.
fn is_opening(s: &[u8]) -> bool
    ensures { result ≡ opens s.now }
{
    let start = body_start(s);
    let c = characters_of(s);
    tag_stands(s, start, b'B') & byte_stands(s, start, 3, c.element)
}

// What a run of stages finds of an input: its service characters and where its body begins; the level
// that UNB names, once stage 7 has passed, and the walk over its segments, once stage 9 has. Before
// that the level is 0, and the walk has passed no segment. (Neither is an `Option`: `found_by`, by which every run of stages promises
// what it finds, has them so.)
#[derive(Clone, Copy)]
pub struct Found {
    pub characters: Characters,
    pub start: usize,
    pub level: u8,
    pub walk: Walk,
}

// Stages 2 and 3.
pub fn opening_of(s: &[u8]) -> Result<Found, Refusal>
    ensures { result ≡ progress 2 3 s.now }
{
    if has_bad_advice(s) {
        return failed(Fault::UnusableAdvice, 0);
    }
    let start = body_start(s);
    if is_opening(s) {
        let characters = characters_of(s);
        let walk = walk::beginning();
        return Ok(Found {
            characters,
            start,
            level: 0,
            walk,
        });
    }
    failed(Fault::NoOpening, start)
}
