ghost use Rattle.std.specs.Prelude.{◌≡◌, ◌<◌, ◌≤◌, ◌^◌, ℕ, All, IfOk, None, length, map, replicate, slice_index};
ghost use Rattle.std.specs.List.{filter, range_with_len};
ghost use Rattle.network_file.specs.Cells.{is_gate_at};
ghost use Rattle.flow_model.specs.Bounds.{IsRowInBounds};
ghost use Rattle.flow_model.specs.State.{row_at};
ghost use Rattle.cell_sweep.specs.CellStates.{cell_state_at};
ghost use Rattle.region_body.specs.First.{AreConstantsOf, IsFirst};
ghost use Rattle.region_body.specs.Gates.{IsGateOf};
ghost use Rattle.region_body.specs.Rows.{constants_at};

use crate::cell_constants::CellConstants;
use crate::first::{cell_constants_of, state_of};
use crate::gate::GatePlace;
use cell_sweep::CellState;
use flow_model::Row;
use network_file::{Kind, Net};
use no_memory::NoMemory;
use std::alloc::Global;
use timelines::demand_of;

/// What never changes of these cells.
pub(crate) fn constants_of(
    alloc: Global,
    net: &Net,
    cells: &[u32],
) -> Result<Vec<CellConstants>, NoMemory>
    requires there { All (λ i. i < length net.now.cells) cells.now }
    ensures one_each { IfOk result (λ constants. length constants.items ≡ length cells.now) }
    ensures each { IfOk result (λ constants. (p : ℕ) → p < length cells.now →
        AreConstantsOf net.now (slice_index cells.now p) (constants_at constants.items p)) }
{
    let mut constants = Vec::with_capacity(alloc, cells.len())?;
    for i in cells {
        constants.push(cell_constants_of(net, *i))?;
    }
    Ok(constants)
}

/// The states of these cells with their rows at step `t`, none joined to another.
pub(crate) fn states_of(
    alloc: Global,
    net: &Net,
    t: u64,
    cells: &[u32],
    rows: &[Row],
) -> Result<Vec<CellState>, NoMemory>
    requires there { All (λ i. i < length net.now.cells) cells.now }
    requires in_time { t ≤ net.now.steps }
    requires rows { All (λ i. i < length rows.now) cells.now }
    requires bounds { All (λ i. IsRowInBounds net.now t i (row_at rows.now i)) cells.now }
    ensures one_each { IfOk result (λ states. length states.items ≡ length cells.now) }
    ensures each { IfOk result (λ states. (p : ℕ) → p < length cells.now →
        IsFirst net.now (slice_index cells.now p) (row_at rows.now (slice_index cells.now p)) (cell_state_at states.items p)) }
{
    let mut states = Vec::with_capacity(alloc, cells.len())?;
    for i in cells {
        states.push(state_of(net, t, *i, &rows[*i as usize]))?;
    }
    Ok(states)
}

/// What these cells held earlier.
pub(crate) fn earlier_of(
    alloc: Global,
    earlier: &[u64],
    cells: &[u32],
) -> Result<Vec<u64>, NoMemory>
    requires { All (λ i. i < length earlier.now) cells.now }
    ensures { IfOk result (λ before. before.items ≡ map (slice_index earlier.now) cells.now) }
{
    let mut before = Vec::with_capacity(alloc, cells.len())?;
    for i in cells {
        before.push(earlier[*i as usize])?;
    }
    Ok(before)
}

/// Nothing is put for so many cells of a halo yet.
pub fn nothing_put(alloc: Global, cells: usize) -> Result<Vec<Option<u64>>, NoMemory>
    ensures { IfOk result (λ put. put.items ≡ replicate cells None) }
{
    Ok(vec![in alloc; None; cells]?)
}

/// The gates among these cells, at step 0.
pub(crate) fn gates_of(alloc: Global, net: &Net, cells: &[u32]) -> Result<Vec<GatePlace>, NoMemory>
    requires there { All (λ i. i < length net.now.cells) cells.now }
    requires few { length cells.now < 2 ^ 32 }
    ensures places { IfOk result (λ gates. map (λ gate. gate.place) gates.items ≡
        filter (λ p. is_gate_at net.now.cells (slice_index cells.now p)) (range_with_len 0 (length cells.now))) }
    ensures demands { IfOk result (λ gates. All (IsGateOf net.now cells.now 0) gates.items) }
{
    let mut gates = Vec::new(alloc);
    for p in 0..cells.len() {
        if is_gate(net, cells[p]) {
            gates.push(GatePlace {
                place: p as u32,
                timeline: demand_of(alloc, &net.plan, cells[p])?,
            })?;
        }
    }
    Ok(gates)
}

// Whether cell `i` is a gate.
fn is_gate(net: &Net, i: u32) -> bool
    requires { i < length net.now.cells }
    ensures { result ≡ is_gate_at net.now.cells i }
{
    let cell = &net.cells[i as usize];
    match cell.kind {
        Kind::Road { .. } => false,
        Kind::Gate => true,
        Kind::Exit => false,
    }
}
