// Separators that are held back until something follows them, under any service characters (paper 01,
// "Trimming"): what is held back after a separator of a rank, and how it is let out before a byte of a
// value. Each step stores its part of the text in a lent buffer, or measures it alone: the sink says which.
// It promises what `emission_laws` gives for the tokens passed. (The ranks are numbers, since a lower one ends what a higher one
// does. The buffer, the measure and the characters stay three parameters, here and in what puts texts: a contract would have to
// name each part of one struct as `text.old.buffer`, as `scanner` tells of the input and its characters.)
#![tactic(auto)]

ghost use Rattle.std.specs.Prelude.{[], ◌∷◌, ◌≡◌, ◌+◌, ◌≤◌, ◌<◌};
ghost use Rattle.values.specs.Tokens.{separator};
ghost use Rattle.emission_laws.specs.Emission.{nothing, waiting, separated, let_out};
ghost use Rattle.held_separators.specs.Putting.{value_byte, value_tokens, Countable, Fits, Puts};

use characters::Characters;
use emission_laws::{Held, Measure};
use storing::{Sink, put_byte};

// ---- what is held back

pub fn nothing_held() -> Held
    ensures { result ≡ nothing }
{
    Held {
        elements: 0,
        repeats: 0,
        components: 0,
    }
}

// After a separator of a rank: 0 ends a segment, 1 an element, 2 a repeat, 3 a component.
pub fn after_separator(h: Held, rank: u8) -> Held
    requires { waiting h < 18446744073709551615 }
    ensures { result ≡ separated h rank }
{
    match rank {
        0 => nothing_held(),
        1 => Held {
            elements: h.elements + 1,
            repeats: 0,
            components: 0,
        },
        2 => Held {
            repeats: h.repeats + 1,
            components: 0,
            ..h
        },
        _ => Held {
            components: h.components + 1,
            ..h
        },
    }
}

// Puts what is held back, and returns the place after it.
fn let_out<S: Sink>(buffer: &mut [u8], at: usize, c: Characters, h: Held) -> usize
    requires { at + waiting h ≤ S.room buffer.old }
    ensures { (buffer.new ≡ S.holds buffer.old at (let_out c h)) × (result ≡ at + waiting h) }
{
    let repeats = at + h.elements;
    let components = repeats + h.repeats;
    let end = components + h.components;
    if end == at {
        return at;
    }
    S::fill(buffer, at, h.elements, c.element);
    S::fill(buffer, repeats, h.repeats, c.repetition);
    S::fill(buffer, components, h.components, c.component);
    end
}

// ---- tokens

// Past a byte of a value, which lets out what is held back.
pub fn put_value_byte<S: Sink>(buffer: &mut [u8], m: Measure, c: Characters, b: u8) -> Measure
    requires { Fits S.room c buffer.old m (value_byte b ∷ []) }
    ensures { Puts S.holds c buffer.old m (value_byte b ∷ []) buffer.new result }
{
    let at = let_out::<S>(buffer, m.total, c, m.held);
    Measure {
        total: put_byte::<S>(buffer, at, c, b),
        held: nothing_held(),
    }
}

// Past a separator: a terminator takes a byte under any characters, and another one is held back.
pub fn put_separator<S: Sink>(buffer: &mut [u8], m: Measure, c: Characters, rank: u8) -> Measure
    requires { (Fits S.room c buffer.old m (separator rank 0 ∷ [])) × (Countable m 1) }
    ensures { Puts S.holds c buffer.old m (separator rank 0 ∷ []) buffer.new result }
{
    let held = after_separator(m.held, rank);
    if rank == 0 {
        S::set(buffer, m.total, c.terminator);
        return Measure {
            total: m.total + 1,
            held,
        };
    }
    Measure { held, ..m }
}

// Past a value; an empty one leaves held back what is.
pub fn put_value<S: Sink>(buffer: &mut [u8], m: Measure, c: Characters, value: &[u8]) -> Measure
    requires { Fits S.room c buffer.old m (value_tokens value.now) }
    ensures { Puts S.holds c buffer.old m (value_tokens value.now) buffer.new result }
{
    if value.is_empty() {
        return m;
    }
    let at = let_out::<S>(buffer, m.total, c, m.held);
    Measure {
        total: storing::put_value::<S>(buffer, at, c, value),
        held: nothing_held(),
    }
}
