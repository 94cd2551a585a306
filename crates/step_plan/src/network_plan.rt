ghost use Rattle.std.specs.Prelude.{◌≡◌, ◌+◌, ◌*◌, ◌<◌, ◌≤◌, ℕ, false, [], is_some, length, IfOk, OnOk, OnErr};
ghost use Rattle.step_plan.specs.Records.{planned_at, with_cell};
ghost use Rattle.step_plan.specs.Adding.{with_record};
ghost use Rattle.step_plan.specs.Counts.{counts_of};
ghost use Rattle.step_plan.specs.Sound.{HasRoom, IsSoundPlan, IsSoundRecord};
ghost use Rattle.step_plan.specs.Capacity.{capacity_at};
ghost use Rattle.step_plan.specs.Green.{green_at, signal_of};
ghost use Rattle.step_plan.specs.Changes.{in_force, IsRising};
ghost use Rattle.step_plan.specs.Demand.{demand_at};
ghost use Rattle.step_plan.specs.Total.{demand_from, total_demand};
ghost use Rattle.step_plan.specs.Turning.{shares_at};
ghost use Rattle.step_plan.specs.Speeds.{speed_at};
ghost use Rattle.step_plan.specs.SpeedBounds.{has_speeds};

use crate::bounds::{MOST_CELLS, MOST_RECORDS, MOST_STEPS};
use crate::cell_plan::CellPlan;
use crate::cell_record::CellRecord;
use crate::change::Change;
use crate::plan_counts::PlanCounts;
use crate::signal::Signal;
use fixed_flow::MOST_PARTS;
use no_memory::NoMemory;
use std::alloc::Global;
use std::marker::Model;

/// What varies from step to step: the capacity of each cell, the light of each signal, the demand of
/// each gate, the turning shares of each diverge and the speed in each road.
///
/// Each record stands with its cell, so that what is asked of a cell takes the time of its own records
/// alone.
#[derive(Debug, Drop)]
pub struct Plan {
    alloc: Global,
    cells: Vec<CellPlan>,
    counts: PlanCounts,
}

impl Model for Plan {
    ghost use Rattle.step_plan.specs.Records.{PlanRecords};
    ghost use Rattle.step_plan.specs.Sound.{IsCounted};

    ghost Value = { PlanRecords };

    ghost view = { λ plan. record { cells = plan.cells.items } };

    ghost invariant = { λ plan. IsCounted (record { cells = plan.cells.items }) plan.counts };
}

impl Plan {
    /// The plan without cells. It takes no memory.
    pub fn open(alloc: Global) -> Self
        ensures { result ≡ record { cells = [] } }
    {
        Plan {
            alloc,
            cells: Vec::new(alloc),
            counts: PlanCounts {
                signals: 0,
                limits: 0,
                demands: 0,
                turns: 0,
                speeds: 0,
            },
        }
    }

    /// Adds a cell whose capacity is this many parts a step.
    pub fn put_cell(&mut self, capacity: u64) -> Result<(), NoMemory>
        requires few_cells { length self.old.cells < MOST_CELLS }
        ensures added { OnOk result (self.new ≡ with_cell self.old capacity) }
        ensures unchanged { OnErr result (self.new ≡ self.old) }
    {
        self.cells.push(CellPlan::new(capacity))?;
        Ok(())
    }

    /// Adds a record of a cell. Of the limits that speak of a step the last one holds, and so of the turn and the speed
    /// records; what all demand records bring in a step adds up.
    pub fn put(&mut self, cell: u32, one: CellRecord) -> Result<(), NoMemory>
        requires has_cell { cell < length self.old.cells }
        requires sound { IsSoundRecord one }
        requires room { HasRoom self.old cell one }
        ensures added { OnOk result (self.new ≡ with_record self.old cell one) }
        ensures unchanged { OnErr result (self.new ≡ self.old) }
    {
        let counts = self.counts.with_one(&one)?;
        let own = &mut self.cells[cell as usize];
        own.put(self.alloc, one)?;
        self.counts = counts;
        Ok(())
    }

    /// The capacity of a cell at a step, in parts: `Q` of Daganzo (1994). The time it takes grows with
    /// the limits of this cell alone.
    pub fn capacity(&self, cell: u32, t: u64) -> u64
        requires has_cell { cell < length self.now.cells }
        requires in_time { t < MOST_STEPS }
        ensures { result ≡ capacity_at self.now cell t }
    {
        self.cells[cell as usize].capacity_at(t)
    }

    /// Whether a cell may send in a step: it has no signal, or its signal shows green.
    pub fn green(&self, cell: u32, t: u64) -> bool
        requires has_cell { cell < length self.now.cells }
        requires in_time { t < MOST_STEPS }
        ensures { result ≡ green_at self.now cell t }
    {
        self.cells[cell as usize].is_green_at(t)
    }

    /// What enters a gate in a step, in parts. The time it takes grows with the records of this cell
    /// alone.
    pub fn demand(&self, cell: u32, t: u64) -> u64
        requires has_cell { cell < length self.now.cells }
        requires in_time { t < MOST_STEPS }
        ensures demand { result ≡ demand_at self.now cell t }
        ensures bound { result ≤ MOST_RECORDS * MOST_PARTS }
    {
        self.cells[cell as usize].demand_at(t)
    }

    /// What enters a gate in the steps of `[t, end)`, in parts; none where `t` isn't below `end`. The time
    /// it takes grows with the demand records of this cell alone, not with the steps.
    pub fn demand_from(&self, cell: u32, t: u64, end: u64) -> u128
        requires has_cell { cell < length self.now.cells }
        requires in_time { end ≤ MOST_STEPS }
        ensures demand { result ≡ demand_from self.now cell t end }
        ensures bound { result ≤ MOST_RECORDS * (MOST_PARTS * end) }
    {
        self.cells[cell as usize].demand_from(t, end)
    }

    /// The turning shares of the diverge out of a cell at a step: by the last turn record that speaks of
    /// it, and else `own`. The time it takes grows with the turn records of this cell alone.
    pub fn shares(&self, cell: u32, t: u64, own: (u32, u32)) -> (u32, u32)
        requires has_cell { cell < length self.now.cells }
        requires in_time { t < MOST_STEPS }
        ensures { result ≡ shares_at self.now cell t own }
    {
        self.cells[cell as usize].shares_at(t, own)
    }

    /// The free-flow speed in a cell at a step, as numerator and denominator of its ratio to the road's: by the last speed
    /// record that speaks of it, and else 1/1. The time it takes grows with the speed records of this cell alone.
    pub fn speed(&self, cell: u32, t: u64) -> (u32, u32)
        requires has_cell { cell < length self.now.cells }
        requires in_time { t < MOST_STEPS }
        ensures { result ≡ speed_at self.now cell t }
    {
        self.cells[cell as usize].speed_at(t)
    }

    /// Whether a cell has a speed record.
    pub fn has_speeds(&self, cell: u32) -> bool
        requires has_cell { cell < length self.now.cells }
        ensures { result ≡ has_speeds self.now cell }
    {
        self.cells[cell as usize].has_speeds()
    }

    /// Whether a cell has a signal.
    pub fn has_signal(&self, cell: u32) -> bool
        requires has_cell { cell < length self.now.cells }
        ensures { result ≡ is_some (signal_of self.now cell) }
    {
        self.cells[cell as usize].has_signal()
    }

    /// The signal of a cell, where it has one.
    pub fn signal(&self, cell: u32) -> Option<Signal>
        requires has_cell { cell < length self.now.cells }
        ensures { result ≡ signal_of self.now cell }
    {
        self.cells[cell as usize].signal()
    }

    /// The changes of a cell's capacity, in parts, from its own capacity at the start. For k limits of
    /// the cell it takes time in the order of k log k.
    pub fn capacity_changes(&self, alloc: Global, cell: u32) -> Result<Vec<Change<u64>>, NoMemory>
        requires has_cell { cell < length self.now.cells }
        ensures in_force { IfOk result (λ changes. (t : ℕ) →
            in_force (planned_at self.now cell).capacity changes.items t ≡ capacity_at self.now cell t) }
        ensures rising { IfOk result (λ changes. IsRising changes.items) }
    {
        self.cells[cell as usize].capacity_changes(alloc)
    }

    /// The changes of what enters a gate in a step, in parts, from 0 at the start. For k demand records
    /// of the cell it takes time in the order of k log k.
    pub fn demand_changes(&self, alloc: Global, cell: u32) -> Result<Vec<Change<u64>>, NoMemory>
        requires has_cell { cell < length self.now.cells }
        ensures in_force { IfOk result (λ changes. (t : ℕ) → in_force 0 changes.items t ≡ demand_at self.now cell t) }
        ensures rising { IfOk result (λ changes. IsRising changes.items) }
    {
        self.cells[cell as usize].demand_changes(alloc)
    }

    /// The changes of the turning shares of the diverge out of a cell, from `own` at the start. For k
    /// turn records of the cell it takes time in the order of k log k.
    pub fn share_changes(
        &self,
        alloc: Global,
        cell: u32,
        own: (u32, u32),
    ) -> Result<Vec<Change<(u32, u32)>>, NoMemory>
        requires has_cell { cell < length self.now.cells }
        ensures in_force { IfOk result (λ changes. (t : ℕ) → in_force own changes.items t ≡ shares_at self.now cell t own) }
        ensures rising { IfOk result (λ changes. IsRising changes.items) }
    {
        self.cells[cell as usize].share_changes(alloc, own)
    }

    /// The changes of the speed in a cell as a ratio to the road's, from 1/1 at the start. For k speed records of the cell
    /// it takes time in the order of k log k.
    pub fn speed_changes(
        &self,
        alloc: Global,
        cell: u32,
    ) -> Result<Vec<Change<(u32, u32)>>, NoMemory>
        requires has_cell { cell < length self.now.cells }
        ensures in_force { IfOk result (λ changes. (t : ℕ) → in_force (1, 1) changes.items t ≡ speed_at self.now cell t) }
        ensures rising { IfOk result (λ changes. IsRising changes.items) }
    {
        self.cells[cell as usize].speed_changes(alloc)
    }

    /// How many records of each kind the plan has. It takes the same time for any plan.
    pub fn counts(&self) -> PlanCounts
        ensures { result ≡ counts_of self.now }
    {
        self.counts
    }

    /// The sum of all demand of the steps below `steps`, in parts.
    pub fn total(&self, steps: u64) -> u128
        requires few_steps { steps ≤ MOST_STEPS }
        ensures total { result ≡ total_demand self.now steps }
        ensures bound { result ≤ MOST_RECORDS * (MOST_PARTS * steps) }
        ensures sound { IsSoundPlan self.now }
    {
        let mut total = 0;
        for cell in &self.cells {
            total += cell.demand_from(0, steps);
        }
        total
    }
}
