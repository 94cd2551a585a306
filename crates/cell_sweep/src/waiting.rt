ghost use Rattle.std.specs.Prelude.{◌≡◌, ◌<◌, ℕ, length, map, slice_index};
ghost use Rattle.cell_sweep.specs.CellStates.{cell_state_at};
ghost use Rattle.cell_sweep.specs.Waiting.{waited};

use crate::cell_state::CellState;

/// The state after so many steps in which nothing left the cell and nothing entered.
pub fn waited(state: &CellState, steps: u64) -> CellState
    ensures { result ≡ waited steps state.now }
{
    if steps == 0 {
        return *state;
    }
    CellState {
        held: state.held.wrapping_add(state.n.wrapping_mul(steps)),
        ..*state
    }
}

/// Has all cells wait so many steps.
pub fn wait_all(states: &mut [CellState], steps: u64)
    ensures { states.new ≡ map (waited steps) states.old }
{
    for p in 0..states.len() {
        states[p] = waited(&states[p], steps);
    }
}

/// Notes what each cell holds.
pub fn note_held(states: &[CellState], before: &mut [u64])
    requires one_each { length before.old ≡ length states.now }
    ensures { (p : ℕ) → p < length states.now → slice_index before.new p ≡ (cell_state_at states.now p).n }
{
    for p in 0..states.len() {
        before[p] = states[p].n;
    }
}
