ghost use Rattle.std.specs.Prelude.{◌≡◌, ◌+◌, ◌<◌, ◌≤◌, ◌^◌, ℕ, All, IfOk, length, map};
ghost use Rattle.std.specs.List.Sorted.{IsStrictlyIncreasing};
ghost use Rattle.network_file.specs.Numbered.{connector_at};
ghost use Rattle.chain_order.specs.Order.{IsOrder};
ghost use Rattle.cell_sweep.specs.CellStates.{cell_state_at};
ghost use Rattle.region_body.specs.FollowedLinks.{AreFollowed, IsLinkThere};
ghost use Rattle.region_body.specs.Carrying.{IsConnectorAmong};
ghost use Rattle.region_body.specs.Chains.{AreDistinct, most_out, odd_ones};
ghost use Rattle.region_body.specs.Joining.{AreKnown};

use crate::cells::Cells;
use crate::chain::chained;
use crate::followed_connector::{FollowedConnector, connector_of};
use crate::followed_link::FollowedLink;
use crate::joining::join_next;
use cell_sweep::CellState;
use network_file::Net;
use no_memory::NoMemory;
use std::alloc::Global;

/// How a region's cells hang together: the links between neighbours whose most changes, and the other connectors.
#[derive(Drop)]
pub(crate) struct Connections {
    /// The links from a cell to the next whose most changes with the steps.
    pub(crate) links: Vec<FollowedLink>,
    /// The connectors that are no link from a cell to the next.
    pub(crate) connectors: Vec<FollowedConnector>,
}

/// Joins cells by these connectors from step `t` on, where none is joined yet.
pub(crate) fn join_cells(
    alloc: Global,
    net: &Net,
    t: u64,
    region: &Cells,
    states: &mut [CellState],
) -> Result<Connections, NoMemory>
    requires in_time { t ≤ net.now.steps }
    requires there { All (λ i. i < length net.now.cells) region.now.order.now.placed }
    requires connectors { All (λ k. k < length net.now.connectors) region.now.connectors.now }
    requires known { All (λ k. AreKnown region.now.order.now.placed region.now.halo.now (connector_at net.now.connectors k)) region.now.connectors.now }
    requires increasing { IsStrictlyIncreasing region.now.cells.now }
    requires order { IsOrder region.now.cells.now region.now.order.now }
    requires distinct { AreDistinct region.now.order.now.placed }
    requires halo_increasing { IsStrictlyIncreasing region.now.halo.now }
    requires few { length region.now.cells.now < 2 ^ 32 }
    requires few_halo { length region.now.halo.now < 2 ^ 32 }
    requires one_each { length states.old ≡ length region.now.order.now.placed }
    requires apart { (p : ℕ) → (cell_state_at states.old p).most ≡ 0 }
    ensures only_most { (q : ℕ) → cell_state_at states.new q ≡ record (cell_state_at states.old q) { most = (cell_state_at states.new q).most } }
    ensures links { IfOk result (λ connections. All (IsLinkThere (length region.now.order.now.placed) t) connections.links.items) }
    ensures followed { IfOk result (λ connections. AreFollowed (most_out net.now region.now.order.now.placed region.now.connectors.now) states.new connections.links.items t) }
    ensures numbers { IfOk result (λ connections. map (λ connector. connector.number) connections.connectors.items ≡ odd_ones net.now region.now.order.now.placed region.now.connectors.now) }
    ensures connected { IfOk result (λ connections. All (IsConnectorAmong net.now region.now.order.now.placed region.now.halo.now) connections.connectors.items) }
    ensures come { IfOk result (λ connections. All (λ connector. connector.timeline.step ≤ t) connections.connectors.items) }
{
    let _steps = net.steps;
    let mut links = Vec::new(alloc);
    let mut connectors = Vec::new(alloc);
    let placed = region.order.placed();
    for k in region.connectors {
        match chained(region, net.connectors[*k as usize]) {
            Some(p) => join_next(alloc, net, t, placed, p, states, &mut links)?,
            None => connectors.push(connector_of(alloc, net, *k, region)?)?,
        }
    }
    Ok(Connections { links, connectors })
}
