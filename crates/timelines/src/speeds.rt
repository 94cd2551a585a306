ghost use Rattle.std.specs.Prelude.{◌≡◌, ◌<◌, ℕ, IfOk, length};
ghost use Rattle.step_plan.specs.Speeds.{speed_at};
ghost use Rattle.timelines.specs.Timelines.{value_at};

use crate::timeline::Timeline;
use no_memory::NoMemory;
use std::alloc::Global;
use step_plan::Plan;

/// The speed in a cell as a ratio to the road's, at step 0; 1/1 where no speed record speaks.
pub fn speed_of(alloc: Global, plan: &Plan, cell: u32) -> Result<Timeline<(u32, u32)>, NoMemory>
    requires has_cell { cell < length plan.now.cells }
    ensures speed { IfOk result (λ line. (t : ℕ) → value_at line t ≡ speed_at plan.now cell t) }
    ensures step { IfOk result (λ line. line.step ≡ 0) }
{
    let changes = plan.speed_changes(alloc, cell)?;
    Ok(Timeline::new((1, 1), changes))
}
