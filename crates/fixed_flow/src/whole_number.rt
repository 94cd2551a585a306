ghost use Rattle.std.specs.Prelude.{◌≡◌};
ghost use Rattle.fixed_flow.specs.Spelling.{whole_of};

// The most digits of a whole number.
const MOST_DIGITS: usize = 9;

/// The value of a whole number of 1 to 9 digits (docs/FORMAT.md), and `None` for any other text.
pub fn whole(text: &[u8]) -> Option<u32>
    ensures { result ≡ whole_of text.now }
{
    if text.is_empty() || text.len() > MOST_DIGITS {
        return None;
    }
    let mut value: u32 = 0;
    for &byte in text {
        if !byte.is_ascii_digit() {
            return None;
        }
        value = value * 10 + (byte - b'0') as u32;
    }
    Some(value)
}
