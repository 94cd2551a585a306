ghost use Rattle.std.specs.Prelude.{◌≡◌};
ghost use Rattle.std.specs.Char.{is_ascii_digit};
ghost use Rattle.std.specs.List.{prefix_len};
ghost use Rattle.saved_run.specs.Numbers.{number_of};

// The most digits of a number.
const MOST_DIGITS: usize = 20;

/// The number that a text spells: `0`, or 1 to 20 digits without a leading zero, below 2^64.
pub(crate) fn number(text: &[u8]) -> Option<u64>
    ensures { result ≡ number_of text.now }
{
    if text.is_empty() || text.len() > MOST_DIGITS {
        return None;
    }
    if text.len() > 1 && text[0] == b'0' {
        return None;
    }
    let mut value: u128 = 0;
    for &byte in text {
        if !byte.is_ascii_digit() {
            return None;
        }
        value = value * 10 + u128::from(byte - b'0');
    }
    u64::try_from(value).ok()
}

/// How many digits stand at the front of a text.
pub(crate) fn digits(text: &[u8]) -> usize
    ensures { result ≡ prefix_len is_ascii_digit text.now }
{
    for (i, byte) in text.iter().enumerate() {
        if !byte.is_ascii_digit() {
            return i;
        }
    }
    text.len()
}
