// The number that an argument spells, of any that 64 bits hold.
ghost use Rattle.std.specs.Prelude.{◌≡◌};
ghost use Rattle.inputs.specs.WideNumber.{wide_number_of};

// What a text spells in decimal digits. Digits only, at least one of them; what 64 bits do not hold is no
// number of ours.
pub fn wide_number_of(text: &[u8]) -> Option<usize>
    ensures { result ≡ wide_number_of text.now }
{
    if text.is_empty() {
        return None;
    }
    let mut n: usize = 0;
    for &b in text {
        if b < b'0' || b'9' < b {
            return None;
        }
        n = n.checked_mul(10)?.checked_add(usize::from(b - b'0'))?;
    }
    Some(n)
}
