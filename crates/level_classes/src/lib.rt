// Whether bytes belong in a level (paper 01, "Levels"): one byte, or all of a slice from a place on.
// Callers ask the question; how it is answered is known to this crate alone. One byte is looked up in
// two masks, which stay in registers. Many bytes are compared with the ends of the ranges, since the
// compiler can compare sixteen bytes at once, and not shift by sixteen of them.
#![tactic(auto)]

ghost use Rattle.std.specs.Prelude.{◌≡◌, ◌≤◌, drop};
ghost use Rattle.lists.specs.Lists.{all};
ghost use Rattle.characters.specs.Characters.{between};
ghost use Rattle.levels.specs.Levels.{in_level};
ghost use Rattle.level_classes.specs.Masks.{is_set, in_class};

// Level A: the bit worth 2^k says whether the byte 32 + k is in it.
const LEVEL_A: u64 = 0x07ff_fffe_ffff_ffe7;
// What level B adds: the bit worth 2^k says whether the byte 64 + k is one of `a` to `z`.
const LETTERS: u64 = 0x07ff_fffe_0000_0000;

// A byte's bit is set in a mask whose lowest bit is that of the byte `first`. Bytes below it have the
// highest numbers, and no branch asks what a byte is: on mixed bytes it would be mispredicted.
fn is_set(mask: u64, first: u8, b: u8) -> bool
    requires { first ≤ 192 }
    ensures { result ≡ is_set mask first b }
{
    let k = b.wrapping_sub(first);
    (k < 64) & ((mask >> (k % 64)) % 2 == 1)
}

fn is_between(low: u8, high: u8, b: u8) -> bool
    ensures { result ≡ between low high b }
{
    (low..=high).contains(&b)
}

// A byte's class is the number of levels in which it belongs; a level is known by the least class that
// it holds, a number, so that one comparison without a branch tells. What is known of the byte: it is in
// level A, it is one of `a` to `z`.
fn holds(level: u8, in_a: bool, letter: bool) -> bool
    ensures { result ≡ in_class level in_a letter }
{
    level <= u8::from(in_a) + u8::from(in_a | letter)
}

// A byte belongs in the level, by comparisons. Nothing here branches, so that many bytes are asked at
// once.
pub fn is_within(level: u8, b: u8) -> bool
    ensures { result ≡ in_level level b }
{
    let in_a = is_between(32, 34, b) | (is_between(37, 63, b) | is_between(65, 90, b));
    holds(level, in_a, is_between(97, 122, b))
}

// A byte belongs in the level.
pub fn is_in_level(level: u8, b: u8) -> bool
    ensures { result ≡ in_level level b }
{
    holds(level, is_set(LEVEL_A, 32, b), is_set(LETTERS, 64, b))
}

// All bytes from a place on belong in the level. The loop never ends early. (The index stays: a slice from `start` on is there
// only where `start` is no place behind the end.)
pub fn all_in_level(s: &[u8], start: usize, level: u8) -> bool
    ensures { result ≡ all (in_level level) (drop start s.now) }
{
    let mut inside = true;
    for at in start..s.len() {
        inside &= is_within(level, s[at]);
    }
    inside
}
