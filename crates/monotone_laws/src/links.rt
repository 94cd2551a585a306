ghost use Rattle.std.specs.Prelude.{◌≡◌, ◌↔◌, IsTrue};
ghost use Rattle.monotone_laws.specs.Links.{HasLinksAlone, is_link};

use network_file::{Connector, Net};

/// Whether every connector of the network is a link, as the laws of this crate ask.
pub fn has_links_alone(net: &Net) -> bool
    ensures { IsTrue result ↔ HasLinksAlone net.now }
{
    for connector in &net.connectors {
        if !is_link(*connector) {
            return false;
        }
    }
    true
}

// Whether this connector is one.
fn is_link(connector: Connector) -> bool
    ensures { result ≡ is_link connector }
{
    match connector {
        Connector::Link { .. } => true,
        Connector::Merge { .. } | Connector::Diverge { .. } => false,
    }
}
