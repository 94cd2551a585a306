ghost use Rattle.std.specs.Prelude.{◌≡◌, ℕ, Bool};
ghost use Rattle.std.specs.List.{list_any};
ghost use Rattle.network_file.specs.Connectors.{cells_of};
ghost use Rattle.region_cut.specs.ConnectorCells.{three_cells};

use network_file::Connector;

/// The cells of a connector, in the order of its fields; the cell downstream of a link stands twice.
pub fn three_cells(connector: Connector) -> [u32; 3]
    ensures cells { result ≡ three_cells connector }
    ensures same { (test : ℕ → Bool) → list_any test result ≡ list_any test (cells_of connector) }
{
    match connector {
        Connector::Link { up, down } => [up, down, down],
        Connector::Merge { up1, up2, down, .. } => [up1, up2, down],
        Connector::Diverge {
            up,
            down1,
            down2,
            ..
        } => [up, down1, down2],
    }
}
