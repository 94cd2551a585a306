ghost use Rattle.std.specs.Prelude.{◌≡◌, ◌≤◌, ◌<◌, ◌+◌, ◌*◌, ◌/◌, ◌^◌};
ghost use Rattle.merge_rule.specs.Merge.{first_share};
ghost use Rattle.connector_flow.specs.Weights.{AreBoth};

use crate::ratio::Ratio;
use fixed_flow::share_floor;
use std::marker::Model;

/// The priorities of a merge or the turning shares of a diverge, 1 to 1,000 each.
#[derive(Clone, Copy)]
pub(crate) struct WeightPair {
    first: u32,
    second: u32,
    // One to both together.
    share: Ratio,
}

impl Model for WeightPair {
    ghost use Rattle.std.specs.Prelude.{ℕ, ◌+◌};
    ghost use Rattle.connector_flow.specs.Weights.{HaveShare};

    ghost Value = { ℕ × ℕ };

    ghost view = { λ weights. (weights.first, weights.second) };

    ghost inverse = { λ pair. record { first = pair.0; second = pair.1; share = (1, pair.0 + pair.1) } };

    ghost inverse_ok = { λ weights held i. record { first = weights.first; second = weights.second; share = held.share_is i } };

    ghost invariant = { λ weights. HaveShare (weights.first, weights.second) weights.share };
}

impl WeightPair {
    /// The pair of these two.
    pub(crate) fn new(first: u32, second: u32) -> WeightPair
        requires { AreBoth (first, second) }
        ensures { result ≡ (first, second) }
    {
        WeightPair {
            first,
            second,
            share: Ratio::new(1, first + second),
        }
    }

    /// The pair of these two, with the share that is there where they are the same.
    pub(crate) fn renewed(self, now: (u32, u32)) -> WeightPair
        requires { AreBoth now }
        ensures { result ≡ now }
    {
        let (first, second) = now;
        if self.first == first && self.second == second {
            return self;
        }
        WeightPair::new(first, second)
    }

    /// The first.
    pub(crate) fn first(self) -> u32
        ensures value { result ≡ self.0 }
        ensures some { 1 ≤ result }
    {
        self.first
    }

    /// The second.
    pub(crate) fn second(self) -> u32
        ensures value { result ≡ self.1 }
        ensures some { 1 ≤ result }
    {
        self.second
    }

    /// How many times both are whole in an amount.
    #[inline(always)]
    pub(crate) fn whole(self, amount: u64) -> u64
        ensures quotient { result ≡ amount / (self.0 + self.1) }
        ensures within { result * (self.0 + self.1) ≤ amount }
    {
        self.share.part(amount)
    }

    /// The share of the first in an amount, rounded down.
    #[inline(always)]
    pub(crate) fn first_share(self, amount: u64) -> u64
        ensures share { result ≡ first_share amount self.0 self.1 }
        ensures within { result ≤ amount }
    {
        let first = u64::from(self.first);
        if amount < 1 << 42 {
            return self.share.part_of_few(amount * first);
        }
        share_floor(amount, first, first + u64::from(self.second))
    }
}
