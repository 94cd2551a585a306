ghost use Rattle.std.specs.Prelude.{◌≡◌, ◌+◌, ◌<◌, ◌^◌};
ghost use Rattle.fixed_flow.specs.Spelling.{amount_of};
ghost use Rattle.fixed_flow.specs.Pass.{parts_at_end};

use crate::amount::PARTS_PER_VEHICLE;

// The longest spelling: twelve digits, a point and six digits.
const LONGEST: usize = 19;

const MOST_WHOLE_DIGITS: usize = 12;

const MOST_DECIMALS: usize = 6;

// The parts that a text spells, in one pass over its bytes.
pub(crate) fn parts(text: &[u8]) -> Option<u64>
    ensures { result ≡ amount_of text.now }
{
    if text.len() > LONGEST {
        return None;
    }
    let mut value: u64 = 0;
    let mut point = None;
    for (at, &byte) in text.iter().enumerate() {
        if byte.is_ascii_digit() {
            value = value * 10 + (byte - b'0') as u64;
        } else if byte == b'.' && point.is_none() {
            point = Some(at);
        } else {
            return None;
        }
    }
    match point {
        None => whole_parts(value, text.len()),
        Some(at) => decimal_parts(value, at, text.len() - at - 1),
    }
}

// The parts of a text without a point, whose digits have this value and number.
fn whole_parts(value: u64, digits: usize) -> Option<u64>
    requires { value < 10 ^ digits }
    ensures { result ≡ parts_at_end value digits None }
{
    if digits == 0 || digits > MOST_WHOLE_DIGITS {
        return None;
    }
    Some(value * PARTS_PER_VEHICLE)
}

// The parts of a text whose digits on both sides of the point have this value.
fn decimal_parts(value: u64, digits: usize, decimals: usize) -> Option<u64>
    requires { value < 10 ^ (digits + decimals) }
    ensures { result ≡ parts_at_end value digits (Some decimals) }
{
    if digits == 0 || digits > MOST_WHOLE_DIGITS || decimals == 0 || decimals > MOST_DECIMALS {
        return None;
    }
    Some(value * 10u64.pow((MOST_DECIMALS - decimals) as u32))
}
