// The number that an argument spells.
ghost use Rattle.std.specs.Prelude.{◌≡◌};
ghost use Rattle.inputs.specs.Number.{number_of};

// The byte of the digit 9.
const NINE: u8 = 57;

// What a text spells in decimal digits. Digits only, at least one of them; what is above 999,999,999 is no
// number of ours. (`wide_number_of` stands by itself: this definition asks of the number before a digit, that of the
// number after it, so that one function for both would need a law that joins them for each limit.)
pub fn number_of(text: &[u8]) -> Option<usize>
    ensures { result ≡ number_of text.now }
{
    if text.is_empty() {
        return None;
    }
    let mut n: usize = 0;
    for &b in text {
        if b < b'0' || NINE < b || 99999999 < n {
            return None;
        }
        n = 10 * n + usize::from(b - b'0');
    }
    Some(n)
}
