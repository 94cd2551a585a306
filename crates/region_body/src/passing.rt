ghost use Rattle.std.specs.Prelude.{◌≡◌, ◌<◌, ℕ, length};
ghost use Rattle.region_body.specs.Carrying.{CanPass};
ghost use Rattle.region_body.specs.CellRefs.{CanBeWritten, parts_at};
ghost use Rattle.cell_sweep.specs.CellStates.{cell_state_at, with_entered, with_left};

use crate::cell_ref::CellRef;
use cell_sweep::CellState;

/// So much leaves a cell. Of the halo nothing is written.
#[inline(always)]
pub(crate) fn take(states: &mut [CellState], cell: CellRef, parts: u64)
    requires there { CanBeWritten (length states.old) cell }
    requires can { (p : ℕ) → p < length states.old → CanPass (cell_state_at states.old p) 0 (parts_at cell parts p) }
    ensures { (p : ℕ) → p < length states.old → cell_state_at states.new p ≡ with_left (cell_state_at states.old p) (parts_at cell parts p) }
{
    if let CellRef::Own(p) = cell {
        states[p as usize].leave(parts);
    }
}

/// So much enters it.
#[inline(always)]
pub(crate) fn bring(states: &mut [CellState], cell: CellRef, parts: u64)
    requires there { CanBeWritten (length states.old) cell }
    requires can { (p : ℕ) → p < length states.old → CanPass (cell_state_at states.old p) (parts_at cell parts p) 0 }
    ensures { (p : ℕ) → p < length states.old → cell_state_at states.new p ≡ with_entered (cell_state_at states.old p) (parts_at cell parts p) }
{
    if let CellRef::Own(p) = cell {
        states[p as usize].enter(parts);
    }
}
