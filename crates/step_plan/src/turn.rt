ghost use Rattle.std.specs.Prelude.{Some};
ghost use Rattle.step_plan.specs.Records.{in_range};

use crate::change::Change;
use crate::range::is_in_range;
use crate::ranged::Ranged;
use crate::span::span;
use no_memory::NoMemory;
use std::alloc::Global;
use std::marker::Model;

/// A turn record: the turning shares of the diverge out of its cell in each step of `[from, to)`.
#[derive(Clone, Copy, Debug)]
pub struct Turn {
    /// The first step of the range, from 0.
    pub from: u32,
    /// The step after the last one of the range, above `from`.
    pub to: u32,
    /// The share of the first cell downstream: 1 to `MOST_RATIO`.
    pub b1: u32,
    /// The share of the second cell downstream: 1 to `MOST_RATIO`.
    pub b2: u32,
}

impl Model for Turn {
    ghost use Rattle.step_plan.specs.Records.{TurnRecord};

    ghost Value = { TurnRecord };

    ghost view = { λ t. record { from = t.from; to = t.to; b1 = t.b1; b2 = t.b2 } };

    ghost inverse = { λ t. record { from = t.from; to = t.to; b1 = t.b1; b2 = t.b2 } };
}

impl Ranged for Turn {
    type Given = Option<(u32, u32)>;

    ghost speaks = { λ t step. in_range t.from t.to step };

    ghost gives = { λ t. Some (t.b1, t.b2) };

    fn holds_at(&self, t: u64) -> bool {
        is_in_range(self.from, self.to, t)
    }

    fn changes(&self, alloc: Global) -> Result<Vec<Change<Option<(u32, u32)>>>, NoMemory> {
        span(alloc, self.from, self.to, Some((self.b1, self.b2)))
    }
}
