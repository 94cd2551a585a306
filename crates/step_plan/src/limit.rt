ghost use Rattle.std.specs.Prelude.{Some};
ghost use Rattle.step_plan.specs.Records.{in_range};

use crate::change::Change;
use crate::range::is_in_range;
use crate::ranged::Ranged;
use crate::span::span;
use no_memory::NoMemory;
use std::alloc::Global;
use std::marker::Model;

/// A limit record: the capacity of its cell in each step of `[from, to)`.
#[derive(Clone, Copy, Debug)]
pub struct Limit {
    /// The first step of the range, from 0.
    pub from: u32,
    /// The step after the last one of the range, above `from`.
    pub to: u32,
    /// The capacity, in parts a step, from 0.
    pub capacity: u64,
}

impl Model for Limit {
    ghost use Rattle.step_plan.specs.Records.{LimitRecord};

    ghost Value = { LimitRecord };

    ghost view = { λ l. record { from = l.from; to = l.to; capacity = l.capacity } };

    ghost inverse = { λ l. record { from = l.from; to = l.to; capacity = l.capacity } };
}

impl Ranged for Limit {
    type Given = Option<u64>;

    ghost speaks = { λ l step. in_range l.from l.to step };

    ghost gives = { λ l. Some l.capacity };

    fn holds_at(&self, t: u64) -> bool {
        is_in_range(self.from, self.to, t)
    }

    fn changes(&self, alloc: Global) -> Result<Vec<Change<Option<u64>>>, NoMemory> {
        span(alloc, self.from, self.to, Some(self.capacity))
    }
}
