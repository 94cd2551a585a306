ghost use Rattle.std.specs.Prelude.{◌≡◌, ◌<◌, Some};
ghost use Rattle.step_plan.specs.Green.{is_green_by};

use crate::bounds::MOST_STEPS;
use crate::range::is_in_range;
use std::marker::Model;

/// A signal: its cell sends only in steps `t` where `(t + offset) mod cycle` is in `[from, to)`.
#[derive(Clone, Copy, Debug)]
pub struct Signal {
    /// After how many steps it begins anew: 1 to `MOST_STEPS`.
    pub cycle: u32,
    /// Its place in the cycle at step 0: 0 to `cycle` - 1.
    pub offset: u32,
    /// The first place of the cycle that is green, from 0.
    pub from: u32,
    /// The place after the last one that is green: `from` + 1 to `cycle`.
    pub to: u32,
}

impl Model for Signal {
    ghost use Rattle.std.specs.Prelude.{◌<◌};
    ghost use Rattle.step_plan.specs.Records.{SignalRecord};

    ghost Value = { SignalRecord };

    ghost view = { λ s. record { cycle = s.cycle; offset = s.offset; from = s.from; to = s.to } };

    ghost invariant = { λ s. s.offset < s.cycle };

    ghost inverse = { λ s. record { cycle = s.cycle; offset = s.offset; from = s.from; to = s.to } };
}

impl Signal {
    /// Whether the signal shows green at step `t`.
    pub(crate) fn is_green_at(&self, t: u64) -> bool
        requires in_time { t < MOST_STEPS }
        ensures { result ≡ is_green_by (Some self.now) t }
    {
        let place = (t + u64::from(self.offset)) % u64::from(self.cycle);
        is_in_range(self.from, self.to, place)
    }
}
