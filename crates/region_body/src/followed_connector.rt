ghost use Rattle.std.specs.Prelude.{◌≡◌, ◌≤◌, ◌<◌, ◌^◌, ℕ, All, IfOk, length};
ghost use Rattle.std.specs.List.Sorted.{IsStrictlyIncreasing};
ghost use Rattle.connector_flow.specs.Limits.{sends_second};
ghost use Rattle.network_file.specs.Numbered.{connector_at};
ghost use Rattle.chain_order.specs.Order.{IsOrder};
ghost use Rattle.region_body.specs.Carrying.{AreConnectorsFollowed, IsConnectorAmong, IsConnectorFollowed, three_given, three_held};
ghost use Rattle.region_body.specs.CellRefs.{given_of, ref_at};
ghost use Rattle.region_body.specs.Joining.{AreKnown};
ghost use Rattle.region_body.specs.declared.cell_ref.CellRef.{CellRef as RefValue};

use crate::cell_ref::{CellRef, refs_of};
use crate::cells::Cells;
use cell_sweep::reaching;
use connector_flow::{ConnectorTimeline, Ratio, Rule};
use network_file::Net;
use no_memory::NoMemory;
use std::alloc::Global;
use step_plan::MOST_STEPS;

/// A connector that isn't a link from a cell to the next.
#[derive(Drop)]
pub(crate) struct FollowedConnector {
    /// Its number in the network.
    pub(crate) number: u32,
    /// Its cells, in the order of its fields; that of a link downstream stands twice.
    pub(crate) cells: [CellRef; 3],
    /// What it carries, followed forward.
    pub(crate) timeline: ConnectorTimeline,
}

impl FollowedConnector {
    /// What it is given where its cells hold so much: of cells that send the parts that reach their ends, of others all. The
    /// speeds are those of so many own cells and then those of the halo; there are none where no cell has speed records.
    #[inline(always)]
    pub(crate) fn given(&self, held: [u64; 3], speeds: &[Ratio], count: usize) -> [u64; 3]
        requires few { count < 2 ^ 63 }
        ensures { (by : RefValue → ℕ) → held ≡ three_held self.now by → result ≡ three_given self.now (given_of speeds.now count by) }
    {
        if speeds.is_empty() {
            return held;
        }
        let [first, second, third] = held;
        let [a, _, _] = self.cells;
        [
            reaching(first, speeds, a.speed_place(count)),
            self.second_given(second, speeds, count),
            third,
        ]
    }

    // The same of `n` parts in its second cell.
    #[inline(always)]
    fn second_given(&self, n: u64, speeds: &[Ratio], count: usize) -> u64
        requires few { count < 2 ^ 63 }
        ensures { result ≡ given_of speeds.now count (λ cell. n) (sends_second self.now.timeline.rule) (ref_at self.now.cells 1) }
    {
        let [_, b, _] = self.cells;
        match self.timeline.rule() {
            Rule::Merging => reaching(n, speeds, b.speed_place(count)),
            Rule::Linking | Rule::Diverging => n,
        }
    }
}

/// Connector `k`, followed to step 0.
pub(crate) fn connector_of(
    alloc: Global,
    net: &Net,
    k: u32,
    region: &Cells,
) -> Result<FollowedConnector, NoMemory>
    requires there { k < length net.now.connectors }
    requires known { AreKnown region.now.order.now.placed region.now.halo.now (connector_at net.now.connectors k) }
    requires increasing { IsStrictlyIncreasing region.now.cells.now }
    requires order { IsOrder region.now.cells.now region.now.order.now }
    requires halo_increasing { IsStrictlyIncreasing region.now.halo.now }
    requires few { length region.now.cells.now < 2 ^ 32 }
    requires few_halo { length region.now.halo.now < 2 ^ 32 }
    ensures number { IfOk result (λ connector. connector.number ≡ k) }
    ensures connected { IfOk result (IsConnectorAmong net.now region.now.order.now.placed region.now.halo.now) }
    ensures step { IfOk result (λ connector. connector.timeline.step ≡ 0) }
{
    Ok(FollowedConnector {
        number: k,
        cells: refs_of(net, k, region),
        timeline: ConnectorTimeline::new(alloc, net, k)?,
    })
}

/// Follows these connectors to step `t`, where one of them may change by then, and tells up to which step none does.
pub(crate) fn follow_connectors(t: u64, connectors: &mut [FollowedConnector], until: u64) -> u64
    requires in_time { t ≤ MOST_STEPS }
    requires step { All (λ connector. connector.timeline.step ≤ t) connectors.old }
    requires until { All (λ connector. until ≤ connector.timeline.until) connectors.old }
    ensures connectors { AreConnectorsFollowed t connectors.old connectors.new }
    ensures until { All (λ connector. result ≤ connector.timeline.until) connectors.new }
{
    if t < until {
        return until;
    }
    follow_all_connectors(t, connectors)
}

// Follows all of them.
fn follow_all_connectors(t: u64, connectors: &mut [FollowedConnector]) -> u64
    requires in_time { t ≤ MOST_STEPS }
    requires step { All (λ connector. connector.timeline.step ≤ t) connectors.old }
    ensures connectors { AreConnectorsFollowed t connectors.old connectors.new }
    ensures until { All (λ connector. result ≤ connector.timeline.until) connectors.new }
{
    let mut until = u64::MAX;
    for m in 0..connectors.len() {
        until = until.min(follow_connector(t, &mut connectors[m]));
    }
    until
}

// Follows one of them, and tells when it may change.
fn follow_connector(t: u64, connector: &mut FollowedConnector) -> u64
    requires in_time { t ≤ MOST_STEPS }
    requires step { connector.old.timeline.step ≤ t }
    ensures connector { IsConnectorFollowed t connector.old connector.new }
    ensures until { result ≡ connector.new.timeline.until }
{
    connector.timeline.refresh(t);
    connector.timeline.until()
}
