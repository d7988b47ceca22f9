// The scanner: what stands at a place of the input (a byte of a value, a separator, a stray release
// character, the end) and where reading goes on: after a terminator past the line breaks that follow
// it. It promises the tokens of `values`, one at a time.
#![tactic(auto)]

ghost use Rattle.std.specs.Prelude.{◌≡◌, false, ◌+◌, ◌≤◌, ◌<◌, length, get_or};
ghost use Rattle.characters.specs.declared.Role.TheVariants.{Release};
ghost use Rattle.characters.specs.Characters.{role};
ghost use Rattle.scanner.specs.Scanner.{lex_separator, lex_taken, lex_at};
ghost use Rattle.values.specs.Tokens.{ends};
ghost use Rattle.scanner.specs.Scan.{releasing, Others, Passes, Scans, Skips};

use characters::{Characters, Role};
use line_breaks::after_breaks;

pub fn role_of(c: Characters, b: u8) -> Role
    ensures { result ≡ role c b }
{
    if b == c.terminator {
        return Role::Separator(0);
    }
    if b == c.element {
        return Role::Separator(1);
    }
    if c.repetition != 32 && b == c.repetition {
        return Role::Separator(2);
    }
    if b == c.component {
        return Role::Separator(3);
    }
    if c.release != 32 && b == c.release {
        return Role::Release;
    }
    Role::Plain
}

// What stands at a place. `next` is the place at which reading goes on. (A rank stays a number, here and wherever one goes on
// from here: the definitions count with it, as `leb rank 2` and `3 - end`, and the theorems speak of any rank.)
#[derive(Clone, Copy)]
pub enum Lexed {
    Byte { byte: u8, place: usize, next: usize },
    Separator { rank: u8, next: usize },
    Stray { next: usize },
    End,
}

// A separator that is not released, with `next` the place after it.
fn separated(s: &[u8], rank: u8, next: usize) -> Lexed
    ensures { result ≡ lex_separator s.now next rank }
{
    let next = if rank == 0 {
        after_breaks(s, next)
    } else {
        next
    };
    Lexed::Separator { rank, next }
}

// The byte at `place`, after a release character.
fn taken(role: Role, byte: u8, place: usize, next: usize) -> Lexed
    ensures { result ≡ lex_taken role byte place next }
{
    match role {
        Role::Plain => Lexed::Stray { next },
        _ => Lexed::Byte { byte, place, next },
    }
}

// (The input and its characters stay two parameters, here and in what reads on. One struct of both was tried: what a contract
// calls `lex_at c s.now at` is then `lex_at text.entry.characters text.entry.bytes.now at`, in a hundred contracts.)
pub fn lex(s: &[u8], c: Characters, at: usize) -> Lexed
    ensures { result ≡ lex_at c s.now at }
{
    if s.len() <= at {
        return Lexed::End;
    }
    let b = s[at];
    let next = at + 1;
    match role_of(c, b) {
        Role::Separator(rank) => separated(s, rank, next),
        Role::Plain => Lexed::Byte {
            byte: b,
            place: at,
            next,
        },
        Role::Release => {
            if s.len() <= next {
                Lexed::Stray { next }
            } else {
                let d = s[next];
                taken(role_of(c, d), d, next, next + 1)
            }
        }
    }
}

// How the segment that begins at a place ends: with its terminator, or before that with a stray
// release character, or not at all. (Three cases, which no `Option` and no `Result` names.)
#[derive(Clone, Copy)]
pub enum Scanned {
    Ended { next: usize },
    Stray { place: usize },
    Unended,
}

// The byte that takes the next one with it, or the terminator where no byte does.
pub fn releasing(c: Characters) -> u8
    ensures { result ≡ releasing c (role c c.release) }
{
    match role_of(c, c.release) {
        Role::Release => c.release,
        _ => c.terminator,
    }
}

// Where it says no, none of sixteen bytes is `a` or `b`. It never ends early, so that all are asked at
// once. (The index stays: what is promised, and what the loop over such blocks goes on with, is told by places.)
fn holds_either(s: &[u8], a: u8, b: u8, from: usize) -> bool
    requires { from + 16 ≤ length s.now }
    ensures { result ≡ false → Others a b s.now from (from + 16) }
{
    let mut found = false;
    for at in from..from + 16 {
        found |= (s[at] == a) | (s[at] == b);
    }
    found
}

// A place up to which no byte is `a` or `b`: where sixteen bytes that hold one of them begin, or the last
// few. (A `for` by sixteen would not tell the place of the last few.)
fn past_others(s: &[u8], a: u8, b: u8, from: usize) -> usize
    ensures { (from ≤ result) × Others a b s.now from result }
{
    let mut at = from;
    while at < s.len() {
        if s.len() - at < 16 {
            return at;
        }
        if holds_either(s, a, b, at) {
            return at;
        }
        at += 16;
    }
    at
}

// The place after the byte that a release character takes with it, or its own place where it takes none. (An `Option` was
// tried: where release characters stand side by side, a scan takes 15 in 100 more.)
fn past_release(s: &[u8], c: Characters, at: usize) -> usize
    requires { (at < length s.now) × (role c (get_or s.now at 0) ≡ Release) }
    ensures { Passes c s.now at result }
{
    let next = at + 1;
    if s.len() <= next {
        return at;
    }
    match role_of(c, s[next]) {
        Role::Plain => at,
        _ => next + 1,
    }
}

// A byte that is neither the terminator nor a release character ends no segment and takes no other
// byte with it: nothing more is asked of it. (How far a release character goes no `for` would know.)
pub fn scan(s: &[u8], c: Characters, from: usize) -> Scanned
    ensures { Scans c s.now from result }
{
    let release = releasing(c);
    let mut at = past_others(s, c.terminator, release, from);
    while at < s.len() {
        let b = s[at];
        if b == c.terminator {
            return Scanned::Ended {
                next: after_breaks(s, at + 1),
            };
        }
        if b == release {
            let next = past_release(s, c, at);
            if next == at {
                return Scanned::Stray { place: at };
            }
            at = next;
        } else {
            at += 1;
        }
    }
    Scanned::Unended
}

// Where the segment after this one begins: past the next terminator, or at the end of the input.
pub fn segment_end(s: &[u8], c: Characters, from: usize) -> usize
    ensures { Skips (ends 0) c s.now from result }
{
    match scan(s, c, from) {
        Scanned::Ended { next } => next,
        _ => segment_end_past(s, c, from),
    }
}

// The same where a stray release character, which `scan` stops at, may stand before the terminator. (How far a token goes no
// `for` would know.)
fn segment_end_past(s: &[u8], c: Characters, from: usize) -> usize
    ensures { Skips (ends 0) c s.now from result }
{
    let mut at = from;
    loop {
        match lex(s, c, at) {
            Lexed::Byte { next, .. } | Lexed::Stray { next } => at = next,
            Lexed::Separator { rank, next } => {
                if rank == 0 {
                    return next;
                }
                at = next;
            }
            Lexed::End => return at,
        }
    }
}
