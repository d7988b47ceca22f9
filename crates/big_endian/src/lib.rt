// Big-endian numbers in a buffer (request 2026-04: "numbers are big-endian"): read and stored, in any
// width up to eight bytes. It promises the number that `numbers` reads there, and every byte of the
// buffer after a store. Which numbers stand where is left to others.
#![tactic(auto)]

ghost use Rattle.std.specs.Prelude.{◌≡◌, ◌+◌, ◌≤◌, length};
ghost use Rattle.std.proofs.lemmas.List.Edits.{sets};
ghost use Rattle.numbers.specs.Numbers.{number_at, in_bytes};

// The number of `width` bytes at a place.
pub fn get(s: &[u8], at: usize, width: usize) -> u64
    requires { (at + width ≤ length s.now) × (width ≤ 8) }
    ensures { result ≡ number_at s.now at width }
{
    let mut number: u64 = 0;
    for b in &s[at..at + width] {
        number = number * 256 + u64::from(*b);
    }
    number
}

// Stores a number in `width` bytes at a place, the last byte first. (No `From` leads to a byte from more.)
pub fn put(s: &mut [u8], at: usize, width: usize, number: u64)
    requires { at + width ≤ length s.old }
    ensures { s.new ≡ sets s.old at (in_bytes width number) }
{
    let mut rest = number;
    for i in (0..width).rev() {
        s[at + i] = (rest % 256) as u8;
        rest /= 256;
    }
}
