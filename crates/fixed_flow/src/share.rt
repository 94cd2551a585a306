ghost use Rattle.std.specs.Prelude.{◌≡◌, ◌*◌, ◌/◌, ◌≤◌};

/// The greatest priority, turning share, and numerator and denominator of a ratio.
pub const MOST_RATIO: u32 = 1_000;

/// The share `num / den` of a value, rounded down.
pub fn share_floor(value: u64, num: u64, den: u64) -> u64
    requires divisor { 1 ≤ den }
    requires share { num ≤ den }
    ensures { result ≡ value * num / den }
{
    // Most products fit, and a division of 64 bits is the cheaper one.
    match value.checked_mul(num) {
        Some(product) => product / den,
        None => (value as u128 * num as u128 / den as u128) as u64,
    }
}
