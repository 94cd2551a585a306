ghost use Rattle.std.specs.Prelude.{◌≡◌, ◌<◌, ◌^◌, ◌≤◌, ◌+◌, false, true, MatchOption, length};
ghost use Rattle.std.specs.List.Sorted.{IsStrictlyIncreasing};
ghost use Rattle.chain_order.specs.Order.{IsOrder};
ghost use Rattle.region_body.specs.Chains.{AreDistinct, HasNoNext, IsNextAt, is_chained, is_link};

use crate::cells::Cells;
use crate::own_place::own_place;
use network_file::Connector;

/// The place of the cell upstream, where the connector is a link from one of these cells, as they are placed, to the next.
pub(crate) fn chained(region: &Cells, connector: Connector) -> Option<u32>
    requires increasing { IsStrictlyIncreasing region.now.cells.now }
    requires order { IsOrder region.now.cells.now region.now.order.now }
    requires distinct { AreDistinct region.now.order.now.placed }
    requires few { length region.now.cells.now < 2 ^ 32 }
    ensures { MatchOption result (is_chained region.now.order.now.placed connector ≡ false) (λ p. is_link region.now.order.now.placed p connector ≡ true) }
{
    match connector {
        Connector::Link { up, down } => next_place(region, up, down),
        Connector::Merge { .. } => None,
        Connector::Diverge { .. } => None,
    }
}

// The place of `up`, where `down` stands next.
fn next_place(region: &Cells, up: u32, down: u32) -> Option<u32>
    requires increasing { IsStrictlyIncreasing region.now.cells.now }
    requires order { IsOrder region.now.cells.now region.now.order.now }
    requires distinct { AreDistinct region.now.order.now.placed }
    requires few { length region.now.cells.now < 2 ^ 32 }
    ensures { MatchOption result (HasNoNext region.now.order.now.placed up down) (IsNextAt region.now.order.now.placed up down) }
{
    let placed = region.order.placed();
    let Some(p) = own_place(region, up) else {
        return None;
    };
    let next = p as usize + 1;
    if next < placed.len() && placed[next] == down {
        Some(p)
    } else {
        None
    }
}
