// A text moved inside one buffer: down (request 2026-04: Remove "moves later texts down and zeroes what was
// vacated"; request 2026-07, on the way back) or up (request 2026-07). The old place and the new one may overlap.
// It promises every byte of the buffer at exit.
#![tactic(auto)]

ghost use Rattle.std.specs.Prelude.{◌≡◌, ◌++◌, ◌+◌, ◌-◌, ◌≤◌, length, take, drop, replicate};
ghost use Rattle.std.proofs.lemmas.List.Edits.{sets};

// Moves what stands from `from` up to `end` down to `to`, and zeroes as many bytes behind it as it moved by.
pub fn move_down(s: &mut [u8], to: usize, from: usize, end: usize)
    requires { (to ≤ from) × (from ≤ end) × (end ≤ length s.old) }
    ensures { s.new ≡ sets s.old to (take (end - from) (drop from s.old) ++ replicate (from - to) 0) }
{
    s.copy_within(from..end, to);
    storing::fill(s, to + (end - from), from - to, 0);
}

// Copies what stands from `from` up to `end` to a higher place.
pub fn move_up(s: &mut [u8], to: usize, from: usize, end: usize)
    requires { (from ≤ to) × (from ≤ end) × (to + (end - from) ≤ length s.old) }
    ensures { s.new ≡ sets s.old to (take (end - from) (drop from s.old)) }
{
    s.copy_within(from..end, to);
}
