ghost use Rattle.std.specs.Prelude.{◌≡◌, ◌<◌, ◌^◌, length};
ghost use Rattle.flow_ledger.specs.Balances.{flights_of, initial_of};

use crate::connector_flight::flight_by;
use flow_model::Row;
use network_file::Net;

// The flights of all connectors together.
pub(crate) fn flights(net: &Net, rows: &[Row]) -> i128
    requires one_each { length rows.now ≡ length net.now.cells }
    ensures { result ≡ flights_of net.now rows.now }
{
    let mut sum = 0;
    for k in 0..net.connectors.len() {
        sum += flight_by(net, rows, net.connectors[k]);
    }
    sum
}

// What all cells held at step 0.
pub(crate) fn initial(net: &Net) -> u128
    ensures sum { result ≡ initial_of net.now }
    ensures fits { result < 2 ^ 96 }
{
    let mut sum = 0;
    for cell in &net.cells {
        sum += u128::from(cell.first);
    }
    sum
}
