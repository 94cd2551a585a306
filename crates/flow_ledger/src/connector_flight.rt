ghost use Rattle.std.specs.Prelude.{◌≡◌, ◌<◌, ◌^◌, ◌≤ℤ◌, length, neg_ℤ, pos};
ghost use Rattle.network_file.specs.Numbered.{connector_at};
ghost use Rattle.network_file.specs.Sound.{IsSoundConnector};
ghost use Rattle.flow_ledger.specs.Flight.{flight_by, flight_of, gone_of};
ghost use Rattle.flow_ledger.specs.Books.{come_of};
ghost use Rattle.flow_ledger.specs.FlightLaw.{FlightAtOneStep, FlightLaw, LinkFlightLaw};

use flow_model::Row;
use network_file::{Connector, Net};

/// The flight of connector `k`, in parts: all that has gone out of its cells upstream, less all that has come into its
/// cells downstream. It is negative where the cells downstream are ahead.
pub fn flight(net: &Net, rows: &[Row], k: u32) -> i128
    requires one_each { length rows.now ≡ length net.now.cells }
    requires has_connector { k < length net.now.connectors }
    ensures flight { result ≡ flight_of net.now rows.now k }

    // By rows of the recurrences at uneven steps: what one step carries out of and into the cells that have taken it, for
    // a link its flow of that step or minus that, and 0 where all cells of the connector stand at one step.
    ensures law { FlightLaw net.now rows.now (connector_at net.now.connectors k) result }
    ensures link { LinkFlightLaw net.now rows.now (connector_at net.now.connectors k) result }
    ensures at_one_step { FlightAtOneStep net.now rows.now (connector_at net.now.connectors k) result }
{
    flight_by(net, rows, net.connectors[k as usize])
}

// The flight of a connector of the network.
#[tactic(auto, unfolding(crate::specs::Flight::flight_by))]
pub(crate) fn flight_by(net: &Net, rows: &[Row], connector: Connector) -> i128
    requires one_each { length rows.now ≡ length net.now.cells }
    requires sound { IsSoundConnector net.now.cells connector }
    ensures flight { result ≡ flight_by rows.now connector }
    ensures least { neg_ℤ (pos (2 ^ 65)) ≤ℤ result }
    ensures most { result ≤ℤ pos (2 ^ 65) }
{
    match connector {
        Connector::Link { up, down } => gone(rows, up) - come(rows, down),
        Connector::Merge { up1, up2, down, .. } => {
            gone(rows, up1) + gone(rows, up2) - come(rows, down)
        }
        Connector::Diverge {
            up,
            down1,
            down2,
            ..
        } => gone(rows, up) - (come(rows, down1) + come(rows, down2)),
    }
}

// All that has gone out of a cell.
fn gone(rows: &[Row], cell: u32) -> i128
    requires { cell < length rows.now }
    ensures gone { result ≡ pos (gone_of rows.now cell) }
    ensures fits { gone_of rows.now cell < 2 ^ 64 }
{
    rows[cell as usize].gone as i128
}

// All that has come into a cell.
fn come(rows: &[Row], cell: u32) -> i128
    requires { cell < length rows.now }
    ensures come { result ≡ pos (come_of rows.now cell) }
    ensures fits { come_of rows.now cell < 2 ^ 64 }
{
    rows[cell as usize].come as i128
}
