ghost use Rattle.std.specs.Prelude.{◌≡◌, ◌<◌, ◌^◌, length, not, if◌then◌else◌};
ghost use Rattle.network_file.specs.Cells.{is_exit_at, is_gate_at};
ghost use Rattle.flow_model.specs.State.{occupancy};
ghost use Rattle.flow_ledger.specs.Books.{entered_of, inside_of, left_of, come_of};

use flow_model::Row;
use network_file::{Kind, Net};

/// Sums over the cells of a network, by their rows, in parts.
#[derive(Clone, Copy, Debug)]
pub(crate) struct CellSums {
    /// What the roads and gates hold.
    pub(crate) inside: u128,
    /// All that has come into the gates.
    pub(crate) entered: u128,
    /// What the exits hold.
    pub(crate) left: u128,
}

impl CellSums {
    /// The sums over all cells.
    pub(crate) fn of(net: &Net, rows: &[Row]) -> CellSums
        requires one_each { length rows.now ≡ length net.now.cells }
        ensures inside { result.inside ≡ inside_of net.now rows.now }
        ensures entered { result.entered ≡ entered_of net.now rows.now }
        ensures left { result.left ≡ left_of net.now rows.now }
        ensures fits_inside { result.inside < 2 ^ 96 }
        ensures fits_entered { result.entered < 2 ^ 96 }
        ensures fits_left { result.left < 2 ^ 96 }
    {
        let mut sums = CellSums {
            inside: 0,
            entered: 0,
            left: 0,
        };
        for i in 0..net.cells.len() {
            let (inside, entered, left) = added_by(net, rows, i);
            sums.inside += u128::from(inside);
            sums.entered += u128::from(entered);
            sums.left += u128::from(left);
        }
        sums
    }
}

// What the cell of this number adds to the three sums.
fn added_by(net: &Net, rows: &[Row], cell: usize) -> (u64, u64, u64)
    requires one_each { length rows.now ≡ length net.now.cells }
    requires has_cell { cell < length net.now.cells }
    ensures inside { result.0 ≡ (if not (is_exit_at net.now.cells cell) then occupancy rows.now cell else 0) }
    ensures entered { result.1 ≡ (if is_gate_at net.now.cells cell then come_of rows.now cell else 0) }
    ensures left { result.2 ≡ (if is_exit_at net.now.cells cell then occupancy rows.now cell else 0) }
{
    match net.cells[cell].kind {
        Kind::Road { .. } => (rows[cell].n, 0, 0),
        Kind::Gate => (rows[cell].n, rows[cell].come, 0),
        Kind::Exit => (0, 0, rows[cell].n),
    }
}
