// The first of many bytes at which something is found, kept without a branch, so that a loop that asks of
// each byte asks many at once: the least of all places found; and the last one, byte by byte. It promises that a
// test which its caller hands in said no of each byte before the first, and yes of the last.
#![tactic(auto)]

ghost use Rattle.std.specs.Prelude.{ℕ, true, false, ◌≡◌, ◌-◌, ◌≤◌, ◌<◌, length, get_or};

// Where something is found at the `k`th byte, `k`; else more than any: an `Option` of it would be turned into such a
// number to be compared. (One function that did this and took the least would be compiled with a branch.)
pub fn place_found(found: bool, k: u8) -> u8
    ensures { found ≡ true → result ≤ k }
{
    if found { k } else { 255 }
}

// (The library's `min`, under a name of its own: docs/CONTRACTS.md says of both functions that they may answer less.)
pub fn least(a: u8, b: u8) -> u8
    ensures { (result ≤ a) × (result ≤ b) }
{
    a.min(b)
}

// How many of `COUNT` bytes, told by their numbers, come before the first at which something is found: all of them
// where nothing is. The loop never ends early, and counts in bytes, so that many are asked at once.
pub fn before_first<const COUNT: u8, F: Fn(u8) -> bool>(found: F) -> usize
    requires { (k : ℕ) → k < COUNT → F.pre found k }
    ensures { (result ≤ COUNT) × ((k : ℕ) → k < result → F.post found k false) }
{
    let mut first: u8 = COUNT;
    for k in 0..COUNT {
        first = least(first, place_found(found(k), k));
    }
    usize::from(first)
}

// The place after the last byte before `to` of which the test says yes, or `from` where it says so of none. (`find` was
// tried: of what it finds in a reversed range the library has no lemma, and the proof did not close.)
pub fn after_last<F: Fn(u8) -> bool>(s: &[u8], from: usize, to: usize, found: F) -> usize
    requires { (from ≤ to) × (from < to → to ≤ length s.now) × F.IsAlwaysCallable found }
    ensures { (from ≤ result) × (result ≤ to) × (from < result → F.post found (get_or s.now (result - 1) 0) true) }
{
    for last in (from..to).rev() {
        if found(s[last]) {
            return last + 1;
        }
    }
    from
}
