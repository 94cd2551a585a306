ghost use Rattle.std.specs.Prelude.{◌≡◌, ◌<◌, ℕ, IfOk, length};
ghost use Rattle.step_plan.specs.Demand.{demand_at};
ghost use Rattle.timelines.specs.Timelines.{value_at};

use crate::timeline::Timeline;
use no_memory::NoMemory;
use std::alloc::Global;
use step_plan::Plan;

/// What a gate demands in a step, in parts, at step 0.
pub fn demand_of(alloc: Global, plan: &Plan, cell: u32) -> Result<Timeline<u64>, NoMemory>
    requires has_cell { cell < length plan.now.cells }
    ensures demand { IfOk result (λ line. (t : ℕ) → value_at line t ≡ demand_at plan.now cell t) }
    ensures step { IfOk result (λ line. line.step ≡ 0) }
{
    let changes = plan.demand_changes(alloc, cell)?;
    Ok(Timeline::new(0, changes))
}
