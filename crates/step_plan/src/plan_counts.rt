ghost use Rattle.std.specs.Prelude.{◌≡◌, ◌+◌, IfOk};
ghost use Rattle.step_plan.specs.Counted.{with_one};

use crate::cell_record::CellRecord;
use no_memory::NoMemory;

/// How many records of each kind a plan has.
#[derive(Clone, Copy, Debug, PartialEq, Eq)]
pub struct PlanCounts {
    /// The signals.
    pub signals: usize,
    /// The limit records.
    pub limits: usize,
    /// The demand records.
    pub demands: usize,
    /// The turn records.
    pub turns: usize,
    /// The speed records.
    pub speeds: usize,
}

impl PlanCounts {
    /// With one record more.
    pub(crate) fn with_one(&self, one: &CellRecord) -> Result<PlanCounts, NoMemory>
        ensures { IfOk result (λ more. more ≡ with_one self.now one.now) }
    {
        Ok(match one {
            CellRecord::Signal(_) => PlanCounts {
                signals: one_more(self.signals)?,
                ..*self
            },
            CellRecord::Limit(_) => PlanCounts {
                limits: one_more(self.limits)?,
                ..*self
            },
            CellRecord::Demand(_) => PlanCounts {
                demands: one_more(self.demands)?,
                ..*self
            },
            CellRecord::Turn(_) => PlanCounts {
                turns: one_more(self.turns)?,
                ..*self
            },
            CellRecord::Speed(_) => PlanCounts {
                speeds: one_more(self.speeds)?,
                ..*self
            },
        })
    }
}

// One record more. There is no memory for more records than can be counted.
fn one_more(count: usize) -> Result<usize, NoMemory>
    ensures { IfOk result (λ more. more ≡ count + 1) }
{
    count.checked_add(1).ok_or(NoMemory)
}
