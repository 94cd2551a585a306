ghost use Rattle.std.specs.Prelude.{◌≡◌, ℕ, Bool};
ghost use Rattle.std.specs.List.{list_any};
ghost use Rattle.cut_grow.specs.Sides.{side_of, two_cells};

use network_file::Connector;

/// A side of a connector: the cells that it leads out of, or those that it leads into.
#[derive(Clone, Copy)]
pub(crate) enum Side {
    Upstream,
    Downstream,
}

impl Side {
    /// The cells of a connector on this side; where there is one alone it stands twice.
    pub(crate) fn cells(self, connector: Connector) -> [u32; 2]
        ensures cells { result ≡ two_cells self connector }
        ensures same { (test : ℕ → Bool) → list_any test result ≡ list_any test (side_of self connector) }
    {
        match self {
            Side::Upstream => match connector {
                Connector::Link { up, .. } | Connector::Diverge { up, .. } => [up, up],
                Connector::Merge { up1, up2, .. } => [up1, up2],
            },
            Side::Downstream => match connector {
                Connector::Link { down, .. } | Connector::Merge { down, .. } => [down, down],
                Connector::Diverge { down1, down2, .. } => [down1, down2],
            },
        }
    }
}
