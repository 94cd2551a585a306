ghost use Rattle.std.specs.Prelude.{◌≡◌, ◌<◌, ◌≤◌, length};
ghost use Rattle.step_plan.specs.Limits.{most_steps};
ghost use Rattle.traffic_laws.specs.Bottleneck.{
  IsRateTimesGreenSteps,
  IsRateTimesSteps,
  PassesAllWhereFed,
  PassesAtMost,
  green_capacity,
  green_capacity_over,
};

use network_file::Net;
use step_plan::Plan;

/// The most that a cell passes from step `from` up to step `to`, in parts: its capacities at the green ones of these
/// steps, added up. A cell without a signal is always green.
pub fn most_passed(net: &Net, cell: u32, from: u64, to: u64) -> u64
    requires has_cell { cell < length net.now.cells }
    requires range { from ≤ to }
    requires in_time { to ≤ net.now.steps }
    ensures capacities { result ≡ green_capacity_over net.now cell from to }
    ensures rate { IsRateTimesSteps net.now cell from to result }
    ensures green_rate { IsRateTimesGreenSteps net.now cell from to result }

    // By the recurrences no more goes out of the cell at these steps; and exactly as much where it has a link out of it and,
    // at each of them that is green, as much as it can pass comes to its end, and the cell downstream can receive that.
    ensures most { PassesAtMost net.now cell from to result }
    ensures all { PassesAllWhereFed net.now cell from to result }
{
    let mut most = 0;
    for t in from..to {
        most += green_capacity(&net.plan, cell, t);
    }
    most
}

// Its capacity at a green step, and 0 at a red one.
fn green_capacity(plan: &Plan, cell: u32, t: u64) -> u64
    requires has_cell { cell < length plan.now.cells }
    requires in_time { t < most_steps }
    ensures { result ≡ green_capacity plan.now cell t }
{
    if plan.green(cell, t) {
        plan.capacity(cell, t)
    } else {
        0
    }
}
