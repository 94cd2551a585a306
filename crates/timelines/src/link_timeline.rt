ghost use Rattle.std.specs.Prelude.{◌≡◌, ◌≤◌, ◌<◌, ℕ, IfOk, IsTrue, length};
ghost use Rattle.timelines.specs.Timelines.{IsSteady};

use crate::cell_timeline::CellTimeline;
use crate::now::Now;
use no_memory::NoMemory;
use std::alloc::Global;
use std::marker::Model;
use step_plan::{MOST_STEPS, Plan};

/// The most that a link carries in a step, whatever its cells hold, followed forward from step 0.
#[derive(Debug, Drop)]
pub struct LinkTimeline {
    up: CellTimeline,
    down: CellTimeline,
}

impl Model for LinkTimeline {
    ghost use Rattle.std.specs.Prelude.{◌≡◌};
    ghost use Rattle.timelines.specs.Links.{LinkValues};

    ghost Value = { LinkValues };

    ghost view = { λ link. record { up = link.up; down = link.down; step = link.up.capacity.step } };

    ghost invariant = { λ link. link.down.capacity.step ≡ link.up.capacity.step };
}

impl LinkTimeline {
    ghost use Rattle.timelines.specs.Links.{most_at, most_between};

    /// The timeline of the link from one cell to another, at step 0.
    pub fn new(alloc: Global, plan: &Plan, up: u32, down: u32) -> Result<LinkTimeline, NoMemory>
        requires has_up { up < length plan.now.cells }
        requires has_down { down < length plan.now.cells }
        ensures timeline { IfOk result (λ link. (t : ℕ) → most_at link t ≡ most_between plan.now up down t) }
        ensures step { IfOk result (λ link. link.step ≡ 0) }
    {
        Ok(LinkTimeline {
            up: CellTimeline::new(alloc, plan, up, true)?,
            down: CellTimeline::new(alloc, plan, down, false)?,
        })
    }

    /// Whether the most that the link carries never changes.
    pub fn is_constant(&self) -> bool
        ensures { IsTrue result → (s t : ℕ) → most_at self.now s ≡ most_at self.now t }
    {
        self.up.is_constant() && self.down.is_constant()
    }

    /// Follows it to step `t`, and tells what the link carries at most from there on.
    pub fn move_to(&mut self, t: u64) -> Now<u64>
        requires forward { self.old.step ≤ t }
        requires in_time { t ≤ MOST_STEPS }
        ensures value { result.value ≡ most_at self.old t }
        ensures steady { IsSteady (most_at self.old) t result.until }
        ensures later { t < result.until }
        ensures step { self.new.step ≡ t }
        ensures timeline { (s : ℕ) → most_at self.new s ≡ most_at self.old s }
    {
        let up = self.up.move_to(t);
        let down = self.down.move_to(t);
        Now {
            value: up.value.min(down.value),
            until: up.until.min(down.until),
        }
    }
}
