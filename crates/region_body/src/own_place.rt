ghost use Rattle.std.specs.Prelude.{◌≡◌, ◌<◌, ◌^◌, MatchOption, length};
ghost use Rattle.std.specs.List.Sorted.{IsStrictlyIncreasing};
ghost use Rattle.chain_order.specs.Order.{IsOrder};
ghost use Rattle.region_body.specs.Joining.{IsNoneOf, IsPlacedAt};

use crate::cells::Cells;
use region_cut::place_if_listed;

/// The place of a cell, where it is one of these.
pub(crate) fn own_place(region: &Cells, cell: u32) -> Option<u32>
    requires increasing { IsStrictlyIncreasing region.now.cells.now }
    requires order { IsOrder region.now.cells.now region.now.order.now }
    requires few { length region.now.cells.now < 2 ^ 32 }
    ensures { MatchOption result (IsNoneOf region.now.order.now.placed cell) (IsPlacedAt region.now.order.now.placed cell) }
{
    let m = place_if_listed(region.cells, cell)?;
    Some(region.order.places()[m as usize])
}
