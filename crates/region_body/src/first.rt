ghost use Rattle.std.specs.Prelude.{◌≡◌, ◌<◌, ◌≤◌, length};
ghost use Rattle.flow_model.specs.Bounds.{IsRowInBounds, first_at};
ghost use Rattle.network_file.specs.Cells.{is_exit_at};
ghost use Rattle.region_body.specs.First.{AreConstantsOf, IsFirst};

use crate::cell_constants::CellConstants;
use cell_sweep::CellState;
use connector_flow::space_of;
use flow_model::Row;
use network_file::{Kind, Net};

/// What never changes of cell `i`.
pub(crate) fn cell_constants_of(net: &Net, i: u32) -> CellConstants
    requires there { i < length net.now.cells }
    ensures { AreConstantsOf net.now i result }
{
    let cell = &net.cells[i as usize];
    CellConstants {
        first: cell.first,
        is_exit: matches!(cell.kind, Kind::Exit),
    }
}

/// The state of cell `i` with this row at step `t`, joined to no other.
pub(crate) fn state_of(net: &Net, t: u64, i: u32, row: &Row) -> CellState
    requires there { i < length net.now.cells }
    requires in_time { t ≤ net.now.steps }
    requires bounds { IsRowInBounds net.now t i row.now }
    ensures { IsFirst net.now i row.now result }
{
    let _steps = net.steps;
    CellState {
        n: row.n,
        gone: row.gone,
        held: row.wait + row.gone,
        most: 0,
        space: space_of(net, i),
    }
}
