// What tells that bytes stand as their normal form spells them (paper 01, "Normal form"): the service
// characters are the normal form's, and nothing is empty to its end between two bytes that stand side by
// side. It promises the answers of the tests in specs/. How many bytes stand so is left to others.
#![tactic(auto)]

ghost use Rattle.std.specs.Prelude.{◌≡◌};
ghost use Rattle.stages.specs.Contents.{normal_characters};
ghost use Rattle.verbatim.specs.Verbatim.{is_normal, ends_repeat, idle};

use characters::Characters;

// The service characters of a normal form; its repetition separator is a star in version 4, else a space.
pub fn normal_characters(mark: u8, repetition: u8) -> Characters
    ensures { result ≡ normal_characters mark repetition }
{
    Characters {
        component: b':',
        element: b'+',
        mark,
        release: b'?',
        repetition,
        terminator: b'\'',
    }
}

// The service characters are those of a normal form with this fifth byte. (`Characters` has no `==`: it would be asked here alone.)
pub fn is_normal(c: Characters, repetition: u8) -> bool
    ensures { result ≡ is_normal c repetition }
{
    let n = normal_characters(c.mark, repetition);
    let others = (c.release == n.release)
        & ((c.repetition == n.repetition) & (c.terminator == n.terminator));
    (c.component == n.component) & ((c.element == n.element) & ((c.mark == n.mark) & others))
}

// The repetition separator, or the terminator where there is none.
pub fn ends_repeat(c: Characters) -> u8
    ensures { result ≡ ends_repeat c }
{
    if c.repetition == b' ' {
        return c.terminator;
    }
    c.repetition
}

// An empty end may stand between two bytes, of which `r` ends a repeat. Nothing here branches, so that
// many bytes are asked at once.
pub fn is_idle(c: Characters, r: u8, a: u8, b: u8) -> bool
    requires { r ≡ ends_repeat c }
    ensures { result ≡ idle c a b }
{
    let repeat = (a == c.component) | (a == r);
    let element = repeat | (a == c.element);
    ((b == r) & (a == c.component))
        | (((b == c.element) & repeat) | ((b == c.terminator) & element))
}
