// Texts compared: whether two have the same bytes, and the sum of a text's bytes, by which most texts that
// differ are told apart at once. It promises the answer of the definitions.
#![tactic(auto)]

ghost use Rattle.std.specs.Prelude.{◌≡◌, ◌≤◌, length};
ghost use Rattle.lists.specs.Lists.{same, begins as begins_with};
ghost use Rattle.shelves.specs.Layout.{total};

// All bytes of both are the same.
pub fn equal(a: &[u8], b: &[u8]) -> bool
    ensures { result ≡ same a.now b.now }
{
    a == b
}

// A text begins with another.
pub fn begins(s: &[u8], front: &[u8]) -> bool
    ensures { result ≡ begins_with front.now s.now }
{
    s.starts_with(front)
}

// The sum of the bytes of a text that is no longer than a shelf.
pub fn sum(s: &[u8]) -> u32
    requires { length s.now ≤ 65536 }
    ensures { result ≡ total s.now }
{
    let mut sum: u32 = 0;
    for b in s {
        sum += u32::from(*b);
    }
    sum
}
