ghost use Rattle.std.specs.Prelude.{◌≡◌, ◌<◌, ℕ, IfOk, length};
ghost use Rattle.step_plan.specs.Turning.{shares_at};
ghost use Rattle.timelines.specs.Timelines.{value_at};

use crate::timeline::Timeline;
use no_memory::NoMemory;
use std::alloc::Global;
use step_plan::Plan;

/// The turning shares of the diverge out of a cell, at step 0; `own` where no turn record speaks.
pub fn shares_of(
    alloc: Global,
    plan: &Plan,
    cell: u32,
    own: (u32, u32),
) -> Result<Timeline<(u32, u32)>, NoMemory>
    requires has_cell { cell < length plan.now.cells }
    ensures shares { IfOk result (λ line. (t : ℕ) → value_at line t ≡ shares_at plan.now cell t own) }
    ensures step { IfOk result (λ line. line.step ≡ 0) }
{
    let changes = plan.share_changes(alloc, cell, own)?;
    Ok(Timeline::new(own, changes))
}
