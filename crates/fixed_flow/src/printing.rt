ghost use Rattle.std.specs.Prelude.{◌≡◌, ◌+◌, ◌/◌, ◌%◌, ◌≤◌, ◌∷◌, ◌++◌, length, map};
ghost use Rattle.fixed_flow.specs.Printed.{amount_text};
ghost use Rattle.fixed_flow.specs.Signed.{signed_amount_text};

use crate::amount::PARTS_PER_VEHICLE;
use crate::text::Text48;
use itoa::Buffer;

// The values of the six places behind the point.
const PLACES: [u32; 6] = [100_000, 10_000, 1_000, 100, 10, 1];

#[tactic(auto, using(crate::proofs::PrintedFacts::rest_digits), unfolding(crate::specs::Printed::amount_text))]
pub(crate) fn put_parts(parts: u64, text: &mut Text48)
    ensures { text.new ≡ amount_text parts }
{
    text.clear();
    let mut buffer = Buffer::new();
    text.append(buffer.format(parts / PARTS_PER_VEHICLE).as_bytes());
    append_decimals((parts % PARTS_PER_VEHICLE) as u32, text);
}

/// As `Amount::put`, for a number of parts that may be negative, which has `-` in front.
pub fn put_wide(value: i128, text: &mut Text48)
    ensures { text.new ≡ signed_amount_text value }
{
    text.clear();
    if value < 0 {
        text.push(b'-');
    }
    append_wide(value.unsigned_abs(), text);
}

#[tactic(auto, using(crate::proofs::PrintedFacts::rest_digits), unfolding(crate::specs::Printed::amount_text))]
fn append_wide(parts: u128, text: &mut Text48)
    requires { length text.old ≤ 1 }
    ensures { text.new ≡ text.old ++ amount_text parts }
{
    let mut buffer = Buffer::new();
    text.append(buffer.format(parts / PARTS_PER_VEHICLE as u128).as_bytes());
    append_decimals((parts % PARTS_PER_VEHICLE as u128) as u32, text);
}

// Appends a point and the six decimals.
fn append_decimals(decimals: u32, text: &mut Text48)
    requires { length text.old ≤ 41 }
    ensures { text.new ≡ text.old ++ 46 ∷ map (λ place. 48 + decimals / place % 10) PLACES }
{
    text.push(b'.');
    for place in PLACES {
        text.push(b'0' + (decimals / place % 10) as u8);
    }
}
