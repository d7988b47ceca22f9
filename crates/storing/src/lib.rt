// Storing a text in a lent buffer: a run of one byte, a part of another text, a byte of a value as it
// is spelled, an advice. It promises every byte of the buffer at exit; what is not stored keeps its value.
#![tactic(auto)]

ghost use Rattle.std.specs.Prelude.{◌≡◌, ℕ, List, [], ◌∷◌, ◌++◌, ◌+◌, ◌≤◌, ◌<◌, length, replicate, drop};
ghost use Rattle.std.proofs.lemmas.List.Edits.{sets};
ghost use Rattle.characters.specs.Characters.{is_service, advice_of};
ghost use Rattle.values.specs.Spelling.{spell_byte, spell_value};
ghost use Rattle.storing.specs.Sinks.{SinkLaws};
ghost use Rattle.storing.specs.Kept.{stored_laws, measured_laws};

use characters::Characters;

// ---- where a text goes

// Where a text goes: into a lent buffer, or nowhere, where only its length is asked for.
pub trait Sink {
    // What the buffer holds after a text is put at a place.
    ghost holds: { List ℕ → ℕ → List ℕ → List ℕ };

    // How far the texts may reach.
    ghost room: { List ℕ → ℕ };

    // Puts a byte at a place.
    fn set(buffer: &mut [u8], at: usize, b: u8)
        requires { at < room buffer.old }
        ensures { buffer.new ≡ holds buffer.old at (b ∷ []) };

    // Puts a byte `count` times.
    fn fill(buffer: &mut [u8], from: usize, count: usize, b: u8)
        requires { from + count ≤ room buffer.old }
        ensures { buffer.new ≡ holds buffer.old from (replicate count b) };

    // What each sink keeps.
    ghost laws: { SinkLaws holds room };
}

// The text is stored.
pub struct Stored;

impl Sink for Stored {
    ghost holds = { sets };

    ghost room = { length };

    ghost laws = { stored_laws };

    fn set(buffer: &mut [u8], at: usize, b: u8) {
        buffer[at] = b;
    }

    fn fill(buffer: &mut [u8], from: usize, count: usize, b: u8) {
        fill(buffer, from, count, b);
    }
}

// The text is measured alone: no buffer is needed, and none changes.
pub struct Measured;

impl Sink for Measured {
    ghost holds = { λ l at text. l };

    ghost room = { λ l. 18446744073709551615 };

    ghost laws = { measured_laws };

    fn set(_buffer: &mut [u8], _at: usize, _b: u8) {}

    fn fill(_buffer: &mut [u8], _from: usize, _count: usize, _b: u8) {}
}

// Stores a byte `count` times, from a place on.
pub fn fill(buffer: &mut [u8], from: usize, count: usize, b: u8)
    requires { from + count ≤ length buffer.old }
    ensures { buffer.new ≡ sets buffer.old from (replicate count b) }
{
    buffer[from..from + count].fill(b);
}

// Stores what stands in another text from `start` on, from a place on.
pub fn copy(buffer: &mut [u8], from: usize, s: &[u8], start: usize)
    requires { from + length (drop start s.now) ≤ length buffer.old }
    ensures { buffer.new ≡ sets buffer.old from (drop start s.now) }
{
    let rest = &s[start.min(s.len())..];
    buffer[from..from + rest.len()].copy_from_slice(rest);
}

// Stores a short text, from a place on. (`copy_from_slice` was tried: the C library's memcpy, which it calls, costs more than
// a few bytes do.)
pub fn put_short(buffer: &mut [u8], at: usize, text: &[u8])
    requires { at + length text.now ≤ length buffer.old }
    ensures { buffer.new ≡ sets buffer.old at text.now }
{
    for (k, b) in text.iter().enumerate() {
        buffer[at + k] = *b;
    }
}

// A byte that is released inside a value. Nothing here branches on what the byte is, nor in the two
// functions after it: on mixed bytes such a branch is often mispredicted.
pub fn is_service(c: Characters, b: u8) -> bool
    ensures { result ≡ is_service c b }
{
    let release = (c.release != 32) & (b == c.release);
    let others = ((c.repetition != 32) & (b == c.repetition)) | release;
    (b == c.component) | ((b == c.element) | ((b == c.terminator) | others))
}

// Puts a byte of a value as it is spelled, and returns the place after it. The release character is put
// first, and where there is none to put, the byte takes its place. (`as` makes 0 or 1 of the test, as `usize::from` would.)
pub fn put_byte<S: Sink>(buffer: &mut [u8], at: usize, c: Characters, b: u8) -> usize
    requires { at + length (spell_byte c b) ≤ S.room buffer.old }
    ensures { (buffer.new ≡ S.holds buffer.old at (spell_byte c b)) × (result ≡ at + length (spell_byte c b)) }
{
    let last = at + is_service(c, b) as usize;
    S::set(buffer, at, c.release);
    S::set(buffer, last, b);
    last + 1
}

// Puts a value as it is spelled, and returns the place after it.
pub fn put_value<S: Sink>(buffer: &mut [u8], at: usize, c: Characters, value: &[u8]) -> usize
    requires { at + length (spell_value c value.now) ≤ S.room buffer.old }
    ensures { (buffer.new ≡ S.holds buffer.old at (spell_value c value.now)) × (result ≡ at + length (spell_value c value.now)) }
{
    let mut end = at;
    for b in value {
        end = put_byte::<S>(buffer, end, c, *b);
    }
    end
}

// Stores an advice at the front. (An array of the nine bytes, copied, would name them just so.)
pub fn put_advice(buffer: &mut [u8], c: Characters)
    requires { 9 ≤ length buffer.old }
    ensures { buffer.new ≡ sets buffer.old 0 (advice_of c) }
{
    buffer[0] = b'U';
    buffer[1] = b'N';
    buffer[2] = b'A';
    buffer[3] = c.component;
    buffer[4] = c.element;
    buffer[5] = c.mark;
    buffer[6] = c.release;
    buffer[7] = c.repetition;
    buffer[8] = c.terminator;
}
