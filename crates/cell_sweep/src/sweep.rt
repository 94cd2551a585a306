ghost use Rattle.std.specs.Prelude.{◌≡◌, ◌+◌, ◌<◌, ℕ, length, slice_index};
ghost use Rattle.cell_sweep.specs.CellStates.{AreSound, cell_state_at, swept};
ghost use Rattle.cell_sweep.specs.Speeds.{CanSweep, at_speeds};
ghost use Rattle.cell_sweep.specs.Sweeping.{IsSweptTo};

use crate::cell_state::CellState;
use crate::speed_zone::SpeedZone;
use crate::sweep_free::sweep_free;
use crate::sweep_zones::sweep_zones;
use connector_flow::Ratio;

/// Takes the states through a step: each link between neighbours carries its flow, by what they hold as the step begins and
/// at these speeds, and what each cell held then is written to `before`. Speeds are asked for in these zones and behind the
/// last whole four alone.
#[inline(never)]
pub fn sweep_all(
    states: &mut [CellState],
    speeds: &[Ratio],
    zones: &[SpeedZone],
    before: &mut [u64],
)
    requires sound { AreSound states.old }
    requires one_each { length before.old ≡ length states.old }
    requires can { CanSweep states.old speeds.now zones.now }
    ensures states { (p : ℕ) → p < length states.old → cell_state_at states.new p ≡ swept states.old (at_speeds states.old speeds.now) p }
    ensures before { (p : ℕ) → p < length states.old → slice_index before.new p ≡ (cell_state_at states.old p).n }
{
    let Some(last) = states.len().checked_sub(1) else {
        return;
    };
    let enters = sweep_to(states, speeds, zones, before, last);
    before[last] = states[last].n;
    states[last].step(enters, 0);
}

// Takes the states before the last through the step, and gives what enters that.
#[inline(always)]
fn sweep_to(
    states: &mut [CellState],
    speeds: &[Ratio],
    zones: &[SpeedZone],
    before: &mut [u64],
    last: usize,
) -> u64
    requires sound { AreSound states.old }
    requires within { last + 1 ≡ length states.old }
    requires one_each { length before.old ≡ length states.old }
    requires can { CanSweep states.old speeds.now zones.now }
    ensures { IsSweptTo states.old speeds.now last states.new before.new result }
{
    if speeds.is_empty() {
        sweep_free(states, before, last)
    } else {
        sweep_zones(states, speeds, zones, before, last)
    }
}
