ghost use Rattle.std.specs.Prelude.{◌≡◌, ◌-◌, ◌*◌, min, max, if◌then◌else◌};
ghost use Rattle.step_plan.specs.Records.{in_range};

use crate::change::Change;
use crate::range::is_in_range;
use crate::ranged::Ranged;
use crate::span::span;
use no_memory::NoMemory;
use std::alloc::Global;
use std::marker::Model;

/// A demand record: what enters its cell in each step of `[from, to)`, in parts.
#[derive(Clone, Copy, Debug)]
pub struct Demand {
    /// The first step of the range, from 0.
    pub from: u32,
    /// The step after the last one of the range, above `from`.
    pub to: u32,
    /// What enters in each step, in parts: 0 to `MOST_PARTS`.
    pub amount: u64,
}

impl Model for Demand {
    ghost use Rattle.step_plan.specs.Records.{DemandRecord};

    ghost Value = { DemandRecord };

    ghost view = { λ d. record { from = d.from; to = d.to; amount = d.amount } };

    ghost inverse = { λ d. record { from = d.from; to = d.to; amount = d.amount } };
}

impl Ranged for Demand {
    type Given = u64;

    ghost speaks = { λ d step. in_range d.from d.to step };

    ghost gives = { λ d. d.amount };

    fn holds_at(&self, t: u64) -> bool {
        is_in_range(self.from, self.to, t)
    }

    fn changes(&self, alloc: Global) -> Result<Vec<Change<u64>>, NoMemory> {
        span(alloc, self.from, self.to, self.amount)
    }
}

impl Demand {
    /// What the record brings in step `t`.
    pub(crate) fn at(&self, t: u64) -> u64
        ensures { result ≡ if in_range self.now.from self.now.to t then self.now.amount else 0 }
    {
        if self.holds_at(t) { self.amount } else { 0 }
    }

    /// What the record brings in all steps of `[t, end)`.
    pub(crate) fn within(&self, t: u64, end: u64) -> u128
        ensures { result ≡ self.now.amount * (min self.now.to end - max self.now.from t) }
    {
        let (from, to) = (u64::from(self.from), u64::from(self.to));
        let steps = to.min(end).saturating_sub(from.max(t));
        u128::from(self.amount) * u128::from(steps)
    }
}
