// Tags, and other short values: a value by its size and its last four bytes, with the separator that
// ends it; the kind of segment that begins at a place, and whether its tag keeps the rule for tags.
// What the segment then holds is left to others. (How far a token goes no `for` would know, so that each walk over tokens is a `loop`.)
#![tactic(auto)]

ghost use Rattle.std.specs.Prelude.{◌<◌, ◌≡◌, ◌||◌, [], ◌∷◌, leb, true};
ghost use Rattle.characters.specs.Characters.{upper, digit};
ghost use Rattle.segments.specs.declared.Kind.TheVariants.{User};
ghost use Rattle.segments.specs.Kinds.{kind_named};
ghost use Rattle.segments.specs.Tags.{kind_of, is_tag, tag_rule};
ghost use Rattle.scanner.specs.Scan.{segment_at};
ghost use Rattle.values.specs.Values.{ended_by};
ghost use Rattle.tags.specs.Words.{begun, grown, passed, Words, repeat_at};
ghost use Rattle.tags.specs.Naming.{well_named, is_user};

use characters::Characters;
use scanner::{Lexed, lex};
use segments::Kind;

// A value's size and its last four bytes, with zeros in front of fewer; the rank of the separator that
// ends it, 4 where the input ends first; and the place after that separator. (4 stays for none: `rank <= 2` then says no by itself,
// where an `Option` would be asked `is_some_and(|rank| rank <= 2)`.)
#[derive(Clone, Copy)]
pub struct Word {
    pub size: usize,
    pub first: u8,
    pub second: u8,
    pub third: u8,
    pub fourth: u8,
    pub rank: u8,
    pub next: usize,
}

// No byte yet.
fn begun_at(from: usize) -> Word
    ensures { result ≡ begun from }
{
    Word {
        size: 0,
        first: 0,
        second: 0,
        third: 0,
        fourth: 0,
        rank: 4,
        next: from,
    }
}

// One byte more.
fn grown_by(word: Word, byte: u8, next: usize) -> Word
    requires { word.size < next }
    ensures { result ≡ grown word byte next }
{
    Word {
        size: word.size + 1,
        first: word.second,
        second: word.third,
        third: word.fourth,
        fourth: byte,
        rank: 4,
        next,
    }
}

// No byte more: `rank` is 4 where the value goes on.
fn passed_by(word: Word, rank: u8, next: usize) -> Word
    ensures { result ≡ passed word rank next }
{
    Word { rank, next, ..word }
}

// The value that begins at a place. A stray release character in it is passed over.
pub fn word_at(s: &[u8], c: Characters, from: usize) -> Word
    ensures { Words c s.now from result }
{
    let mut word = begun_at(from);
    loop {
        let at = word.next;
        match lex(s, c, at) {
            Lexed::Byte { byte, next, .. } => {
                word = grown_by(word, byte, next);
            }
            Lexed::Separator { rank, next } => {
                return passed_by(word, rank, next);
            }
            Lexed::Stray { next } => {
                word = passed_by(word, 4, next);
            }
            Lexed::End => {
                return word;
            }
        }
    }
}

// The kind of segment that a tag of three bytes names. (They stay three parameters, here and below: they come from a word, a table's row or
// the input, and an array would be filled only to be asked.)
pub fn kind_named(first: u8, second: u8, third: u8) -> Kind
    ensures { result ≡ kind_named (first ∷ second ∷ third ∷ []) }
{
    if first != b'U' || second != b'N' {
        return Kind::User;
    }
    match third {
        b'B' => Kind::Unb,
        b'G' => Kind::Ung,
        b'H' => Kind::Unh,
        b'S' => Kind::Uns,
        b'T' => Kind::Unt,
        b'E' => Kind::Une,
        b'Z' => Kind::Unz,
        _ => Kind::User,
    }
}

// The segment that begins at a place is a user segment by its first byte, as most are. (A `matches!` with a guard was tried; a
// proof is not told what the guard asked.)
fn begins_as_user(s: &[u8], c: Characters, at: usize) -> bool
    ensures { result ≡ true → User ≡ kind_of (segment_at c s.now at) }
{
    match lex(s, c, at) {
        Lexed::Byte { byte, .. } => byte != b'U',
        _ => false,
    }
}

// The kind of the segment that begins at a place.
pub fn kind_at(s: &[u8], c: Characters, at: usize) -> Kind
    ensures { result ≡ kind_of (segment_at c s.now at) }
{
    if begins_as_user(s, c, at) {
        return Kind::User;
    }
    let word = word_at(s, c, at);
    if word.size == 3 {
        kind_named(word.second, word.third, word.fourth)
    } else {
        Kind::User
    }
}

// A byte that a tag may hold. (`is_ordinary` of `ordinary_runs` says the same without a branch, for many bytes at once: no more than the
// library's two tests is said twice.)
fn tag_byte(b: u8) -> bool
    ensures { result ≡ (upper b || digit b) }
{
    b.is_ascii_uppercase() || b.is_ascii_digit()
}

// Three bytes that a tag may hold.
pub fn is_tag(first: u8, second: u8, third: u8) -> bool
    ensures { result ≡ is_tag (first ∷ second ∷ third ∷ []) }
{
    tag_byte(first) && tag_byte(second) && tag_byte(third)
}

// No service segment.
fn is_user(kind: Kind) -> bool
    ensures { result ≡ is_user kind }
{
    matches!(kind, Kind::User)
}

// The rule for a tag of three bytes that a separator of this rank ends.
fn well_named(first: u8, second: u8, third: u8, rank: u8) -> bool
    ensures { result ≡ well_named (first ∷ second ∷ third ∷ []) (leb rank 2) }
{
    if !is_tag(first, second, third) {
        return false;
    }
    if first != b'U' || second != b'N' {
        return true;
    }
    !is_user(kind_named(first, second, third)) && rank <= 2
}

// The element that goes on at a place ends before another repeat of it begins.
fn ends_unrepeated(s: &[u8], c: Characters, from: usize) -> bool
    ensures { result ≡ ended_by 1 (repeat_at c s.now from) }
{
    let mut at = from;
    loop {
        match lex(s, c, at) {
            Lexed::Byte { next, .. } => {
                at = next;
            }
            Lexed::Separator { rank, next } => {
                if rank <= 2 {
                    return rank <= 1;
                }
                at = next;
            }
            Lexed::Stray { next } => {
                at = next;
            }
            Lexed::End => {
                return false;
            }
        }
    }
}

// The tag of the segment that begins at a place keeps the rule for tags. Only where a component
// separator ends the tag, the rest of its element is looked at.
pub fn tag_holds(s: &[u8], c: Characters, at: usize) -> bool
    ensures { result ≡ tag_rule (segment_at c s.now at) }
{
    let word = word_at(s, c, at);
    if word.size != 3 || !well_named(word.second, word.third, word.fourth, word.rank) {
        return false;
    }
    if word.rank <= 2 {
        word.rank <= 1
    } else {
        ends_unrepeated(s, c, word.next)
    }
}
