ghost use Rattle.std.specs.Prelude.{◌≡◌, ◌≤◌, ◌<◌, ℕ, IfOk, IsTrue, length, if◌then◌else◌};
ghost use Rattle.step_plan.specs.Green.{is_green_by};
ghost use Rattle.timelines.specs.Cells.{green_by};
ghost use Rattle.timelines.specs.Timelines.{IsSteady};

use crate::now::Now;
use crate::phase::light;
use crate::timeline::Timeline;
use no_memory::NoMemory;
use std::alloc::Global;
use std::marker::Model;
use step_plan::{MOST_STEPS, Plan, Signal};

/// The most that a cell sends or receives in a step, whatever it holds, followed forward from step 0.
#[derive(Debug, Drop)]
pub struct CellTimeline {
    capacity: Timeline<u64>,
    // That of a cell that sends.
    signal: Option<Signal>,
}

impl Model for CellTimeline {
    ghost use Rattle.timelines.specs.Cells.{CellValues};

    ghost Value = { CellValues };

    ghost view = { λ cell. record { capacity = cell.capacity; signal = cell.signal } };
}

impl CellTimeline {
    ghost use Rattle.timelines.specs.Cells.{cell_most, most_by};

    /// The timeline of a cell that sends, or of one that receives.
    pub fn new(alloc: Global, plan: &Plan, cell: u32, sends: bool) -> Result<CellTimeline, NoMemory>
        requires has_cell { cell < length plan.now.cells }
        ensures most { IfOk result (λ timeline. (t : ℕ) → cell_most timeline t ≡ most_by plan.now cell sends t) }
        ensures step { IfOk result (λ timeline. timeline.capacity.step ≡ 0) }
    {
        let changes = plan.capacity_changes(alloc, cell)?;
        Ok(CellTimeline {
            capacity: Timeline::new(plan.capacity(cell, 0), changes),
            signal: signal_by(plan, cell, sends),
        })
    }

    /// Whether the most never changes.
    pub fn is_constant(&self) -> bool
        ensures { IsTrue result → (s t : ℕ) → cell_most self.now s ≡ cell_most self.now t }
    {
        self.signal.is_none() && self.capacity.is_constant()
    }

    /// Follows it to step `t`, and tells what the cell sends or receives at most from there on.
    pub fn move_to(&mut self, t: u64) -> Now<u64>
        requires forward { self.old.capacity.step ≤ t }
        requires in_time { t ≤ MOST_STEPS }
        ensures value { result.value ≡ cell_most self.old t }
        ensures steady { IsSteady (cell_most self.old) t result.until }
        ensures later { t < result.until }
        ensures moved { self.new ≡ record self.old { capacity = record self.old.capacity { step = t } } }
    {
        self.capacity.move_to(t);
        let (now, light) = (self.capacity.now(), light(self.signal, t));
        Now {
            value: passing(light.value, now.value),
            until: now.until.min(light.until),
        }
    }
}

// The signal of a cell that sends.
fn signal_by(plan: &Plan, cell: u32, sends: bool) -> Option<Signal>
    requires has_cell { cell < length plan.now.cells }
    ensures { (t : ℕ) → is_green_by result t ≡ green_by plan.now cell sends t }
{
    if sends { plan.signal(cell) } else { None }
}

// So much, and nothing at red.
fn passing(green: bool, most: u64) -> u64
    ensures { result ≡ (if green then most else 0) }
{
    if green { most } else { 0 }
}
