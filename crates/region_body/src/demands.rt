ghost use Rattle.std.specs.Prelude.{◌≡◌, ◌+◌, ◌<◌, ◌≤◌, ◌^◌, ℕ, All, IsTrue, length, sum_by};
ghost use Rattle.cell_sweep.specs.CellStates.{cell_state_at, with_entered};
ghost use Rattle.timelines.specs.Timelines.{value_at};
ghost use Rattle.region_body.specs.Gates.{AreAsked, AreGatesKept, asked, demand_into};

use crate::gate::GatePlace;
use cell_sweep::CellState;
use step_plan::MOST_STEPS;

/// What these gates demand in step `t` enters their cells.
pub(crate) fn bring_demands(t: u64, gates: &mut [GatePlace], states: &mut [CellState])
    requires in_time { t ≤ MOST_STEPS }
    requires step { All (λ gate. gate.timeline.step ≤ t) gates.old }
    requires there { All (λ gate. gate.place < length states.old) gates.old }
    requires fits { (p : ℕ) → p < length states.old → (cell_state_at states.old p).n + sum_by (demand_into t p) gates.old < 2 ^ 64 }
    ensures gates { AreAsked t gates.old gates.new }
    ensures states { (p : ℕ) → p < length states.old →
        cell_state_at states.new p ≡ with_entered (cell_state_at states.old p) (sum_by (demand_into t p) gates.old) }
{
    for m in 0..gates.len() {
        bring_demand(t, &mut gates[m], states);
    }
}

// What one of them demands.
fn bring_demand(t: u64, gate: &mut GatePlace, states: &mut [CellState])
    requires in_time { t ≤ MOST_STEPS }
    requires step { gate.old.timeline.step ≤ t }
    requires there { gate.old.place < length states.old }
    requires fits { (cell_state_at states.old gate.old.place).n + value_at gate.old.timeline t < 2 ^ 64 }
    ensures gate { gate.new ≡ asked t gate.old }
    ensures states { (p : ℕ) → p < length states.old →
        cell_state_at states.new p ≡ with_entered (cell_state_at states.old p) (demand_into t p gate.old) }
{
    let parts = demanded(t, gate);
    states[gate.place as usize].enter(parts);
}

/// Whether these gates demand nothing in step `t`.
pub(crate) fn nothing_demanded(t: u64, gates: &mut [GatePlace]) -> bool
    requires in_time { t ≤ MOST_STEPS }
    requires step { All (λ gate. gate.timeline.step ≤ t) gates.old }
    ensures gates { AreGatesKept t gates.old gates.new }
    ensures nothing { IsTrue result → All (λ gate. value_at gate.timeline t ≡ 0) gates.old }
{
    for m in 0..gates.len() {
        if demanded(t, &mut gates[m]) != 0 {
            return false;
        }
    }
    true
}

// What a gate demands in step `t`.
fn demanded(t: u64, gate: &mut GatePlace) -> u64
    requires in_time { t ≤ MOST_STEPS }
    requires step { gate.old.timeline.step ≤ t }
    ensures gate { gate.new ≡ asked t gate.old }
    ensures amount { result ≡ value_at gate.old.timeline t }
{
    gate.timeline.move_to(t);
    gate.timeline.now().value
}
