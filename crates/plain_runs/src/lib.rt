// Runs of plain bytes: bytes of which none is a service character, so that each is a byte of a value and
// stands for itself. It promises that each byte of a run is there and is plain, and what a sink holds
// that a run is put into.
#![tactic(auto)]

ghost use Rattle.std.specs.Prelude.{◌≡◌, ◌+◌, ◌-◌, ◌≤◌, length, take, drop};
ghost use Rattle.plain_runs.specs.Runs.{PlainRun};

use characters::Characters;
use storing::{Measured, Sink, Stored, is_service, put_short};

// The place after a run of plain bytes. (`position` over `s[from..]` would ask that `from` is no more than the length.)
pub fn past_plain(s: &[u8], c: Characters, from: usize) -> usize
    ensures { PlainRun c s.now from result }
{
    for at in from..s.len() {
        if is_service(c, s[at]) {
            return at;
        }
    }
    from.max(s.len())
}

// A sink that takes a run whole: where it is measured alone, nothing goes over its bytes.
pub trait RunSink: Sink {
    // Puts the bytes from a place up to another, which are few most often, from a place of the buffer on.
    fn put_plain(buffer: &mut [u8], into: usize, s: &[u8], from: usize, to: usize)
        requires { (from ≤ to) × (to ≤ length s.now) × (into + (to - from) ≤ Self.room buffer.old) }
        ensures { buffer.new ≡ Self.holds buffer.old into (take (to - from) (drop from s.now)) };
}

impl RunSink for Stored {
    fn put_plain(buffer: &mut [u8], into: usize, s: &[u8], from: usize, to: usize) {
        put_short(buffer, into, &s[from..to]);
    }
}

impl RunSink for Measured {
    fn put_plain(_buffer: &mut [u8], _into: usize, _s: &[u8], _from: usize, _to: usize) {}
}
