// Runs of ordinary bytes, which stand for themselves under all service characters that are in use: the
// place after one, and a run as a part of a text, measured or stored. It promises that each byte of a
// run is there and is a digit or an upper case letter.
#![tactic(auto)]

ghost use Rattle.std.specs.Prelude.{◌≡◌, ◌+◌, ◌-◌, ◌<◌, length, take, drop};
ghost use Rattle.ordinary_runs.specs.Runs.{is_ordinary, quiet, Run, RunFits, longer};

use characters::Characters;
use emission_laws::Measure;
use storing::{Measured, Sink};

// A digit or an upper case letter.
pub fn is_ordinary(b: u8) -> bool
    ensures { result ≡ is_ordinary b }
{
    ((48 <= b) & (b <= 57)) | ((65 <= b) & (b <= 90))
}

// No service character is one.
pub fn is_quiet(c: Characters) -> bool
    ensures { result ≡ quiet c }
{
    let component = is_ordinary(c.component);
    let element = is_ordinary(c.element);
    let release = is_ordinary(c.release);
    let repetition = is_ordinary(c.repetition);
    let terminator = is_ordinary(c.terminator);
    !(component | (element | (release | (repetition | terminator))))
}

// Puts a run of ordinary bytes from a place of the buffer on, where the characters allow to pass over it, and
// returns the place after it.
pub fn put_run<S: Sink>(buffer: &mut [u8], into: usize, s: &[u8], calm: bool, from: usize) -> usize
    requires { RunFits calm s.now from into (S.room buffer.old) }
    ensures { (Run calm s.now from result) × (buffer.new ≡ S.holds buffer.old into (take (result - from) (drop from s.now))) }
{
    if !calm {
        return from;
    }
    for at in from..s.len() {
        let b = s[at];
        if !is_ordinary(b) {
            return at;
        }
        S::set(buffer, into + (at - from), b);
    }
    from.max(s.len())
}

// The place after a run, which is put nowhere.
pub fn past_run(s: &[u8], calm: bool, from: usize) -> usize
    ensures { Run calm s.now from result }
{
    put_run::<Measured>(&mut [], 0, s, calm, from)
}

// So many bytes more.
pub fn with_run(m: Measure, count: usize) -> Measure
    requires { m.total + count < 18446744073709551616 }
    ensures { result ≡ longer m count }
{
    Measure {
        total: m.total + count,
        ..m
    }
}
