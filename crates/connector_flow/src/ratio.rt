ghost use Rattle.std.specs.Prelude.{◌≡◌, ◌≢◌, ◌≤◌, ◌<◌, ◌*◌, ◌^◌, IsTrue, false};
ghost use Rattle.connector_flow.specs.Ratios.{IsRatio, factor_of, part_of};

use fixed_flow::share_floor;
use std::marker::Model;

/// A ratio of at most 1 with a factor beside it, so that a step divides only where an amount is 2^52 parts or more. The
/// factor is of 2^63: of 2^64 that of 1/1 would be too large.
#[derive(Clone, Copy)]
pub struct Ratio {
    num: u32,
    den: u32,
    factor: u64,
}

impl Model for Ratio {
    ghost use Rattle.std.specs.Prelude.{ℕ};
    ghost use Rattle.connector_flow.specs.Ratios.{HasFactor, factor_of};

    ghost Value = { ℕ × ℕ };

    ghost view = { λ ratio. (ratio.num, ratio.den) };

    ghost inverse = { λ pair. record { num = pair.0; den = pair.1; factor = factor_of pair } };

    ghost inverse_ok = { λ ratio held i. record { num = ratio.num; den = ratio.den; factor = held.factor_is i } };

    ghost invariant = { λ ratio. HasFactor (ratio.num, ratio.den) ratio.factor };
}

impl Ratio {
    /// That of these two.
    pub fn new(num: u32, den: u32) -> Ratio
        requires { IsRatio (num, den) }
        ensures { result ≡ (num, den) }
    {
        Ratio {
            num,
            den,
            factor: ((u128::from(num) << 63) / u128::from(den)) as u64 + 1,
        }
    }

    /// Whether it is 1/1, and not another ratio of 1.
    #[inline(always)]
    pub fn is_one(self) -> bool
        ensures one { IsTrue result → self ≡ (1, 1) }
        ensures other { result ≡ false → self ≢ (1, 1) }
    {
        self.den == 1
    }

    /// The part of an amount, rounded down.
    #[inline(always)]
    pub fn part(self, amount: u64) -> u64
        ensures part { result ≡ part_of self amount }
        ensures within { result ≤ amount }
    {
        if amount < 1 << 52 {
            return self.part_of_few(amount);
        }
        share_floor(amount, u64::from(self.num), u64::from(self.den))
    }

    /// The same of so few parts that the factor will do.
    #[inline(always)]
    pub fn part_of_few(self, amount: u64) -> u64
        requires few { amount < 2 ^ 52 }
        ensures part { result ≡ part_of self amount }
        ensures within { result ≤ amount }
    {
        let wide = u128::from(2 * amount) * u128::from(self.factor);
        (wide >> 64) as u64
    }

    /// Its factor of 2^64, where it is less than 1.
    pub(crate) fn whole_factor(self) -> u64
        requires below { self.0 < self.1 }
        ensures { result ≡ 2 * factor_of self }
    {
        2 * self.factor
    }
}
