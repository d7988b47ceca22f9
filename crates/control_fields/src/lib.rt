// Control elements where they are spelled (paper 01, "Control elements"): what a reference or a count
// is judged by is read off the element in one pass, and nothing is trimmed. It promises the answers
// that the element of the trimmed contents gives.
#![tactic(auto)]

ghost use Rattle.std.specs.Prelude.{◌≡◌, ◌&&◌};
ghost use Rattle.values.specs.Tokens.{tokens_at};
ghost use Rattle.control_fields.specs.Fields.{field_of, spells_reference, spells_count};
ghost use Rattle.control_fields.specs.Reading.{Room, with_digit, with_byte};

use characters::Characters;
use elements::{NextByte, byte_at};
use trimmed_values::is_alone;

// An element by its first value: the size in bytes, whether all of them are digits, the number that the
// first six spell, and whether only empty values follow. (The number is no `Option`: `field_of` says it of any six bytes, and only `is_count`
// asks whether they are digits.)
#[derive(Clone, Copy)]
pub struct Field {
    pub size: usize,
    pub digits: bool,
    pub number: u32,
    pub alone: bool,
}

// The number that one byte more spells; after the sixth byte it stays.
fn with_digit(f: Field, b: u8) -> u32
    requires { Room f }
    ensures { result ≡ with_digit f b }
{
    if 6 <= f.size {
        f.number
    } else {
        f.number * 10 + u32::from(b.saturating_sub(b'0'))
    }
}

#[tactic(auto, unfolding(crate::specs::Reading::with_byte, characters::specs::Characters::digit, characters::specs::Characters::between))]
fn with_byte(f: Field, b: u8) -> Field
    requires { Room f }
    ensures { result ≡ with_byte f b }
{
    Field {
        size: f.size + 1,
        digits: f.digits & b.is_ascii_digit(),
        number: with_digit(f, b),
        ..f
    }
}

// The element that begins at a place. (How far a byte goes no `for` would know.)
pub fn field_at(s: &[u8], c: Characters, from: usize) -> Field
    ensures { result ≡ field_of (tokens_at c s.now from) }
{
    let mut at = from;
    let mut f = Field {
        size: 0,
        digits: true,
        number: 0,
        alone: true,
    };
    loop {
        match byte_at(s, c, at) {
            NextByte::Byte { byte, next } => {
                f = with_byte(f, byte);
                at = next;
            }
            NextByte::Ended { place } => {
                return Field {
                    alone: is_alone(s, c, place),
                    ..f
                };
            }
        }
    }
}

// "A reference is one component of 1 to 14 bytes", of one repeat
#[tactic(auto, unfolding(crate::specs::Fields::spells_reference, characters::specs::Characters::between))]
pub fn is_reference(f: Field) -> bool
    ensures { result ≡ spells_reference f }
{
    f.alone && matches!(f.size, 1..=14)
}

// "a count is one component of 1 to 6 digits (leading zeros allowed)", of one repeat
#[tactic(auto, unfolding(crate::specs::Fields::spells_count, characters::specs::Characters::between))]
pub fn is_count(f: Field) -> bool
    ensures { result ≡ spells_count f }
{
    f.alone && f.digits && matches!(f.size, 1..=6)
}
