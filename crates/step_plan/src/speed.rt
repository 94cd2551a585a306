ghost use Rattle.std.specs.Prelude.{Some};
ghost use Rattle.step_plan.specs.Records.{in_range};

use crate::change::Change;
use crate::range::is_in_range;
use crate::ranged::Ranged;
use crate::span::span;
use no_memory::NoMemory;
use std::alloc::Global;
use std::marker::Model;

/// A speed record: in each step of `[from, to)` vehicles drive through its cell at `num`/`den` of the road's free-flow speed.
#[derive(Clone, Copy, Debug)]
pub struct Speed {
    /// The first step of the range, from 0.
    pub from: u32,
    /// The step after the last one of the range, above `from`.
    pub to: u32,
    /// The numerator of the ratio to the road's speed: 1 to `MOST_RATIO`.
    pub num: u32,
    /// The denominator: `num` to `MOST_RATIO`.
    pub den: u32,
}

impl Model for Speed {
    ghost use Rattle.step_plan.specs.Records.{SpeedRecord};

    ghost Value = { SpeedRecord };

    ghost view = { λ s. record { from = s.from; to = s.to; num = s.num; den = s.den } };

    ghost inverse = { λ s. record { from = s.from; to = s.to; num = s.num; den = s.den } };
}

impl Ranged for Speed {
    type Given = Option<(u32, u32)>;

    ghost speaks = { λ s step. in_range s.from s.to step };

    ghost gives = { λ s. Some (s.num, s.den) };

    fn holds_at(&self, t: u64) -> bool {
        is_in_range(self.from, self.to, t)
    }

    fn changes(&self, alloc: Global) -> Result<Vec<Change<Option<(u32, u32)>>>, NoMemory> {
        span(alloc, self.from, self.to, Some((self.num, self.den)))
    }
}
