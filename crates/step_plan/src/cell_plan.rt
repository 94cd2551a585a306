ghost use Rattle.std.specs.Prelude.{◌≡◌, ◌==◌, ℕ, ◌<◌, ◌^◌, is_some, length, not, reverse, IfOk, OnOk, OnErr};
ghost use Rattle.std.specs.List.{find};
ghost use Rattle.step_plan.specs.Changes.{in_force, IsRising};

use crate::bounds::MOST_STEPS;
use crate::cell_record::CellRecord;
use crate::cell_records::CellRecords;
use crate::change::Change;
use crate::demand::Demand;
use crate::fallback::with_fallback;
use crate::limit::Limit;
use crate::ranged::Ranged;
use crate::record_changes::record_changes;
use crate::signal::Signal;
use crate::speed::Speed;
use crate::turn::Turn;
use no_memory::NoMemory;
use std::alloc::Global;
use std::marker::Model;

/// What the plan says of one cell: its capacity, and its records where it has any.
///
/// Most cells have none, and each is asked in each step: the records stand apart, so that the cells
/// lie close together.
#[derive(Debug, Drop)]
pub(crate) struct CellPlan {
    capacity: u64,
    records: Option<Box<CellRecords>>,
}

impl Model for CellPlan {
    ghost use Rattle.std.specs.Option.{option_map_or};
    ghost use Rattle.step_plan.specs.Records.{PlannedCell, bare};

    ghost Value = { PlannedCell };

    ghost view = { λ c. record {
      capacity = c.capacity;
      records = option_map_or (λ own. own.value) c.records bare;
    } };
}

impl CellPlan {
    ghost use Rattle.step_plan.specs.Records.{bare_cell};
    ghost use Rattle.step_plan.specs.Adding.{with_own};
    ghost use Rattle.step_plan.specs.Alone.{alone};
    ghost use Rattle.step_plan.specs.Capacity.{capacity_at};
    ghost use Rattle.step_plan.specs.Green.{is_green_by};
    ghost use Rattle.step_plan.specs.Demand.{demand_at};
    ghost use Rattle.step_plan.specs.Total.{demand_from};
    ghost use Rattle.step_plan.specs.Turning.{shares_at};
    ghost use Rattle.step_plan.specs.Speeds.{speed_at};

    /// A cell of this capacity, without records.
    pub(crate) fn new(capacity: u64) -> Self
        ensures { result ≡ bare_cell capacity }
    {
        CellPlan {
            capacity,
            records: None,
        }
    }

    /// Adds a record.
    pub(crate) fn put(&mut self, alloc: Global, one: CellRecord) -> Result<(), NoMemory>
        ensures added { OnOk result (self.new ≡ record self.old { records = with_own self.old.records one }) }
        ensures unchanged { OnErr result (self.new ≡ self.old) }
    {
        match &mut self.records {
            Some(records) => records.put(one)?,
            None => {
                let mut records = CellRecords::new(alloc);
                records.put(one)?;
                self.records = Some(Box::new(alloc, records)?);
            }
        }
        Ok(())
    }

    /// The cell's signal.
    pub(crate) fn signal(&self) -> Option<Signal>
        ensures { result ≡ self.now.records.signal }
    {
        match &self.records {
            Some(records) => records.signal,
            None => None,
        }
    }

    // Its limits.
    fn limits(&self) -> &[Limit]
        ensures { result.now ≡ self.now.records.limits }
    {
        match &self.records {
            Some(records) => &records.limits,
            None => &[],
        }
    }

    // Its demand records.
    fn demands(&self) -> &[Demand]
        ensures { result.now ≡ self.now.records.demands }
    {
        match &self.records {
            Some(records) => &records.demands,
            None => &[],
        }
    }

    // Its turn records.
    fn turns(&self) -> &[Turn]
        ensures { result.now ≡ self.now.records.turns }
    {
        match &self.records {
            Some(records) => &records.turns,
            None => &[],
        }
    }

    // Its speed records.
    fn speeds(&self) -> &[Speed]
        ensures { result.now ≡ self.now.records.speeds }
    {
        match &self.records {
            Some(records) => &records.speeds,
            None => &[],
        }
    }

    /// Whether the cell has a speed record.
    pub(crate) fn has_speeds(&self) -> bool
        ensures { result ≡ not (length self.now.records.speeds == 0) }
    {
        !self.speeds().is_empty()
    }

    /// Whether the cell has a signal.
    pub(crate) fn has_signal(&self) -> bool
        ensures { result ≡ is_some self.now.records.signal }
    {
        self.signal().is_some()
    }

    /// Whether the cell may send in step `t`: it has no signal, or a green one.
    pub(crate) fn is_green_at(&self, t: u64) -> bool
        requires in_time { t < MOST_STEPS }
        ensures { result ≡ is_green_by self.now.records.signal t }
    {
        match self.signal() {
            Some(signal) => signal.is_green_at(t),
            None => true,
        }
    }

    /// The capacity at step `t`, by the newest limit that speaks of it.
    #[tactic(auto, unfolding(crate::specs::Capacity::capacity_at))]
    pub(crate) fn capacity_at(&self, t: u64) -> u64
        ensures { result ≡ capacity_at (alone self.now) 0 t }
    {
        match newest_at(self.limits(), t) {
            Some(limit) => limit.capacity,
            None => self.capacity,
        }
    }

    /// The turning shares at step `t`, by the newest turn record that speaks of it, and else `own`.
    #[tactic(auto, unfolding(crate::specs::Turning::shares_at))]
    pub(crate) fn shares_at(&self, t: u64, own: (u32, u32)) -> (u32, u32)
        ensures { result ≡ shares_at (alone self.now) 0 t own }
    {
        match newest_at(self.turns(), t) {
            Some(turn) => (turn.b1, turn.b2),
            None => own,
        }
    }

    /// The speed at step `t` as a ratio to the road's, by the newest speed record that speaks of it, and else 1/1.
    #[tactic(auto, unfolding(crate::specs::Speeds::speed_at))]
    pub(crate) fn speed_at(&self, t: u64) -> (u32, u32)
        ensures { result ≡ speed_at (alone self.now) 0 t }
    {
        match newest_at(self.speeds(), t) {
            Some(speed) => (speed.num, speed.den),
            None => (1, 1),
        }
    }

    /// What all demand records bring in step `t`.
    #[tactic(auto, unfolding(crate::specs::Demand::demand_at))]
    pub(crate) fn demand_at(&self, t: u64) -> u64
        requires fits { demand_at (alone self.now) 0 t < 2 ^ 64 }
        ensures { result ≡ demand_at (alone self.now) 0 t }
    {
        let mut amount = 0;
        for demand in self.demands() {
            amount += demand.at(t);
        }
        amount
    }

    /// What all demand records bring in the steps of `[t, end)`.
    pub(crate) fn demand_from(&self, t: u64, end: u64) -> u128
        requires fits { demand_from (alone self.now) 0 t end < 2 ^ 128 }
        ensures { result ≡ demand_from (alone self.now) 0 t end }
    {
        let mut amount = 0;
        for demand in self.demands() {
            amount += demand.within(t, end);
        }
        amount
    }

    /// The changes of the capacity.
    pub(crate) fn capacity_changes(&self, alloc: Global) -> Result<Vec<Change<u64>>, NoMemory>
        ensures in_force { IfOk result (λ changes. (t : ℕ) → in_force self.now.capacity changes.items t ≡
            capacity_at (alone self.now) 0 t) }
        ensures rising { IfOk result (λ changes. IsRising changes.items) }
    {
        let changes = record_changes(alloc, self.limits())?;
        with_fallback(alloc, &changes, self.capacity)
    }

    /// The changes of what all demand records bring.
    pub(crate) fn demand_changes(&self, alloc: Global) -> Result<Vec<Change<u64>>, NoMemory>
        requires fits { (t : ℕ) → demand_at (alone self.now) 0 t < 2 ^ 64 }
        ensures in_force { IfOk result (λ changes. (t : ℕ) → in_force 0 changes.items t ≡
            demand_at (alone self.now) 0 t) }
        ensures rising { IfOk result (λ changes. IsRising changes.items) }
    {
        record_changes(alloc, self.demands())
    }

    /// The changes of the turning shares, which are `own` where no turn record speaks.
    pub(crate) fn share_changes(
        &self,
        alloc: Global,
        own: (u32, u32),
    ) -> Result<Vec<Change<(u32, u32)>>, NoMemory>
        ensures in_force { IfOk result (λ changes. (t : ℕ) → in_force own changes.items t ≡
            shares_at (alone self.now) 0 t own) }
        ensures rising { IfOk result (λ changes. IsRising changes.items) }
    {
        let changes = record_changes(alloc, self.turns())?;
        with_fallback(alloc, &changes, own)
    }

    /// The changes of the speed as a ratio to the road's, which is 1/1 where no speed record speaks.
    pub(crate) fn speed_changes(&self, alloc: Global) -> Result<Vec<Change<(u32, u32)>>, NoMemory>
        ensures in_force { IfOk result (λ changes. (t : ℕ) → in_force (1, 1) changes.items t ≡
            speed_at (alone self.now) 0 t) }
        ensures rising { IfOk result (λ changes. IsRising changes.items) }
    {
        let changes = record_changes(alloc, self.speeds())?;
        with_fallback(alloc, &changes, (1, 1))
    }
}

// The newest record that speaks of step `t`.
fn newest_at<R: Ranged>(records: &[R], t: u64) -> Option<R>
    ensures { result ≡ find (λ one. R.speaks one t) (reverse records.now) }
{
    records.iter().rev().find(|one| one.holds_at(t)).copied()
}
