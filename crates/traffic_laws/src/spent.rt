ghost use Rattle.std.specs.Prelude.{◌≡◌, ◌<◌, length, not, if◌then◌else◌};
ghost use Rattle.network_file.specs.Cells.{is_exit_at};
ghost use Rattle.flow_ledger.specs.Flight.{gone_of};
ghost use Rattle.traffic_laws.specs.TimeSpent.{IsAreaInEachCell, IsAreaInside, time_spent_by};

use flow_model::Row;
use network_file::{Kind, Net};

/// The delay of some rows, and one step for each road or gate that was passed, in parts times steps: for the rows of a
/// run, the time that traffic has spent in the roads and gates of the network.
pub fn time_spent(net: &Net, rows: &[Row]) -> u128
    requires one_each { length rows.now ≡ length net.now.cells }
    ensures spent { result ≡ time_spent_by net.now rows.now }

    // By the rows of a step of the recurrences it is what was inside at each step before, added up; and for each road and
    // gate, its wait and what has gone out of it are what it held, added up.
    ensures area { IsAreaInside net.now rows.now result }
    ensures each_cell { IsAreaInEachCell net.now }
{
    let mut spent = 0u128;
    for i in 0..net.cells.len() {
        spent += u128::from(rows[i].wait) + u128::from(passed_on(net, rows, i));
    }
    spent
}

// What has gone out of a cell that is no exit.
fn passed_on(net: &Net, rows: &[Row], cell: usize) -> u64
    requires one_each { length rows.now ≡ length net.now.cells }
    requires has_cell { cell < length net.now.cells }
    ensures { result ≡ (if not (is_exit_at net.now.cells cell) then gone_of rows.now cell else 0) }
{
    match net.cells[cell].kind {
        Kind::Road { .. } | Kind::Gate => rows[cell].gone,
        Kind::Exit => 0,
    }
}
