// The contents of a body as the normal form spells them (paper 01, "Normal form"): stored in a lent buffer, or
// measured alone, as the sink says. It promises the emission of the tokens from a place on, and where it ends.
#![tactic(auto)]

ghost use Rattle.std.specs.Prelude.{true, ◌≡◌, ◌+◌, ◌-◌, ◌≤◌, length, take, drop};
ghost use Rattle.values.specs.Tokens.{tokens_at};
ghost use Rattle.stages.specs.Contents.{normal_characters};
ghost use Rattle.emission_laws.specs.Emission.{nothing, emitted};
ghost use Rattle.verbatim.specs.Verbatim.{faultless, visible, Sound};
ghost use Rattle.refusals.specs.Limits.{most_bytes};
ghost use Rattle.line_breaks.specs.Unbroken.{unbroken};
ghost use Rattle.stretches.specs.Stretches.{respelling};
ghost use Rattle.unbroken_parts.specs.Parts.{Unbroken};
ghost use Rattle.normal_form_text.specs.Put.{PutAt};
ghost use Rattle.normal_form_text.specs.Going.{Starts, Goes};

use characters::Characters;
use clear_parts::clear_end;
use emission_laws::Measure;
use held_separators::{nothing_held, put_separator, put_value_byte};
use ordinary_runs::{is_quiet, put_run, with_run};
use scanner::{Lexed, lex};
use storing::{Measured, Sink, Stored};
use stretches::{Reached, put_stretch, stretch_end};
use unbroken_parts::{is_unbroken, length_between, put_between};
use verbatim::{is_normal, normal_characters};

// ---- many bytes at once

// A sink that takes many bytes at once. Where the text is measured alone, no more of them are looked at than
// its length asks for. (The texts and the places in them stay parameters of their own, as `unbroken_parts` and `stretches` ask
// for them.)
pub trait PartSink: Sink {
    // Puts the text from a place up to another without its breaks, and returns the place after it; `whole`
    // says that it has none.
    fn put_between(
        buffer: &mut [u8],
        into: usize,
        s: &[u8],
        whole: bool,
        from: usize,
        to: usize,
    ) -> usize
        requires { (into + length (unbroken (drop from (take to s.now))) ≤ Self.room buffer.old) × (from ≤ to) × (to ≤ length s.now) × (whole ≡ true → Unbroken s.now from) }
        ensures { PutAt Self.holds buffer.old into (unbroken (drop from (take to s.now))) buffer.new result };

    // Puts the bytes from a place up to another, respelled.
    fn put_stretch(
        buffer: &mut [u8],
        into: usize,
        c: Characters,
        n: Characters,
        s: &[u8],
        from: usize,
        end: usize,
    )
        requires { (into + (end - from) ≤ Self.room buffer.old) × (end ≤ length s.now) }
        ensures { buffer.new ≡ Self.holds buffer.old into (respelling c n s.now from (end - from)) };
}

impl PartSink for Stored {
    fn put_between(
        buffer: &mut [u8],
        into: usize,
        s: &[u8],
        whole: bool,
        from: usize,
        to: usize,
    ) -> usize {
        put_between(buffer, into, s, whole, from, to)
    }

    fn put_stretch(
        buffer: &mut [u8],
        into: usize,
        c: Characters,
        n: Characters,
        s: &[u8],
        from: usize,
        end: usize,
    ) {
        put_stretch(buffer, into, c, n, s, from, end);
    }
}

impl PartSink for Measured {
    fn put_between(
        _buffer: &mut [u8],
        into: usize,
        s: &[u8],
        whole: bool,
        from: usize,
        to: usize,
    ) -> usize {
        into + length_between(s, whole, from, to)
    }

    fn put_stretch(
        _buffer: &mut [u8],
        _into: usize,
        _c: Characters,
        _n: Characters,
        _s: &[u8],
        _from: usize,
        _end: usize,
    ) {}
}

// ---- part by part

// How a body is spelled: read with the characters `c`, put with the characters `n`. Where `calm` says so, ordinary
// bytes stand for themselves under both. (`calm`, and `whole` below, are found when it runs, once for a text: as const
// parameters they would have all that takes them compiled twice.)
#[derive(Clone, Copy)]
struct Spelling {
    c: Characters,
    n: Characters,
    calm: bool,
}

// Token by token up to the segment's end, spelled with any characters: what is held back is put
// before the next byte of a value, or dropped. The ordinary bytes that follow one of a value are put at once. (How far a token
// or a part goes no `for` would know, here and below.)
fn put_segment<S: PartSink>(buffer: &mut [u8], s: &[u8], by: Spelling, from: Reached) -> Reached
    requires { Starts S.room by s.now buffer.old from }
    ensures { Goes S.holds S.room by s.now buffer.old buffer.new from result }
{
    let mut m = Measure {
        total: from.total,
        held: nothing_held(),
    };
    let mut at = from.at;
    loop {
        match lex(s, by.c, at) {
            Lexed::Byte { byte, next, .. } => {
                m = put_value_byte::<S>(buffer, m, by.n, byte);
                at = put_run::<S>(buffer, m.total, s, by.calm, next);
                m = with_run(m, at - next);
            }
            Lexed::Separator { rank, next } => {
                m = put_separator::<S>(buffer, m, by.n, rank);
                at = next;
                if rank == 0 {
                    return Reached { total: m.total, at };
                }
            }
            Lexed::Stray { next } => {
                at = next;
            }
            Lexed::End => {
                return Reached { total: m.total, at };
            }
        }
    }
}

// A stretch is put byte for byte. Where it is short, what is left of its segment goes token by token, since
// the next one might be as short. (That 192 bytes are short, and 256 enough for one, was found by timing.)
fn put_one_stretch<S: PartSink>(
    buffer: &mut [u8],
    s: &[u8],
    by: Spelling,
    until: usize,
    from: Reached,
) -> Reached
    requires { Starts S.room by s.now buffer.old from }
    ensures { Goes S.holds S.room by s.now buffer.old buffer.new from result }
{
    let at = from.at;
    let to = stretch_end(s, by.c, by.n, at, until);
    S::put_stretch(buffer, from.total, by.c, by.n, s, at, to);
    let passed = to - at;
    let r = Reached {
        total: from.total + passed,
        at: to,
    };
    if 192 <= passed {
        return r;
    }
    put_segment::<S>(buffer, s, by, r)
}

// What follows a part: after one that is not empty most often an empty end, with which the segment goes token
// by token. Where a release character stands there, or the part was empty, it is a stretch, of some 256 bytes
// at most where the characters are alike. (`parted` stays a parameter: with the choice in `put_part`, each of the two steps would
// be proved there to go on where the part ends.)
fn put_rest<S: PartSink>(
    buffer: &mut [u8],
    s: &[u8],
    by: Spelling,
    parted: bool,
    from: Reached,
) -> Reached
    requires { Starts S.room by s.now buffer.old from }
    ensures { Goes S.holds S.room by s.now buffer.old buffer.new from result }
{
    let at = from.at;
    if parted && at < s.len() && s[at] != by.c.release {
        return put_segment::<S>(buffer, s, by, from);
    }
    put_one_stretch::<S>(buffer, s, by, at + 256, from)
}

// A part without empty ends is put without the line breaks, of which there are none where `whole` says so. It
// may be empty.
fn put_part<S: PartSink>(
    buffer: &mut [u8],
    s: &[u8],
    by: Spelling,
    whole: bool,
    from: Reached,
) -> Reached
    requires { Starts S.room by s.now buffer.old from × Sound by.c s.now from.at × (by.n ≡ normal_characters by.c.mark by.n.repetition) × (32 ≤ by.n.repetition) × (whole ≡ true → Unbroken s.now from.at) }
    ensures { Goes S.holds S.room by s.now buffer.old buffer.new from result }
{
    let at = from.at;
    let to = clear_end(s, by.c, by.n.repetition, at);
    let total = S::put_between(buffer, from.total, s, whole, at, to);
    put_rest::<S>(buffer, s, by, at < to, Reached { total, at: to })
}

// Where it says yes, no line break stands from a place on. It is asked only where the characters are the normal
// form's: elsewhere no part is clear, and nobody needs to know.
fn is_whole(s: &[u8], c: Characters, repetition: u8, start: usize) -> bool
    ensures { result ≡ true → Unbroken s.now start }
{
    if !is_normal(c, repetition) {
        return false;
    }
    is_unbroken(s, start)
}

// Puts the contents of the body that begins at `start`, from a place of the buffer on, as a normal form
// with this fifth byte spells them: part by part, so that what is spelled otherwise costs time only where
// it stands. The place after them is handed back.
pub fn put_contents<S: PartSink>(
    buffer: &mut [u8],
    from: usize,
    s: &[u8],
    c: Characters,
    start: usize,
    repetition: u8,
) -> usize
    requires { (from + length (emitted (normal_characters c.mark repetition) nothing (tokens_at c s.now start)) ≤ S.room buffer.old) × (from ≤ 9) × (length s.now ≤ most_bytes) × (faultless (tokens_at c s.now start) ≡ true) × (visible (tokens_at c s.now start) ≡ true) × (32 ≤ repetition) }
    ensures { PutAt S.holds buffer.old from (emitted (normal_characters c.mark repetition) nothing (tokens_at c s.now start)) buffer.new result }
{
    let n = normal_characters(c.mark, repetition);
    let calm = is_quiet(c) & is_quiet(n);
    let by = Spelling { c, n, calm };
    let whole = is_whole(s, c, repetition, start);
    let mut reached = Reached {
        total: from,
        at: start,
    };
    while reached.at < s.len() {
        reached = put_part::<S>(buffer, s, by, whole, reached);
    }
    reached.total
}
