ghost use Rattle.std.specs.Prelude.{◌≡◌, ◌<◌, ◌^◌, length};
ghost use Rattle.std.specs.List.Sorted.{IsStrictlyIncreasing};
ghost use Rattle.network_file.specs.Numbered.{connector_at};
ghost use Rattle.chain_order.specs.Order.{IsOrder};
ghost use Rattle.region_body.specs.CellRefs.{AreRefsOf, IsRefOf, IsWithin, held_before, held_in, put_at, speed_place};
ghost use Rattle.region_body.specs.Joining.{AreKnown, IsKnown};

use crate::cells::Cells;
use crate::own_place::own_place;
use cell_sweep::CellState;
use network_file::Net;
use region_cut::{place, three_cells};

/// Where a region finds a cell of one of its connectors.
#[derive(Clone, Copy)]
pub(crate) enum CellRef {
    /// One of its own, at this place.
    Own(u32),
    /// The one of this index in its halo.
    Halo(u32),
}

impl CellRef {
    /// What the cell holds, by the region's states and what was put for its halo.
    pub(crate) fn held_in(self, states: &[CellState], put: &[Option<u64>]) -> u64
        requires { IsWithin (length states.now) put.now self }
        ensures { result ≡ held_in states.now put.now self }
    {
        match self {
            CellRef::Own(p) => states[p as usize].n,
            CellRef::Halo(j) => put_at(put, j),
        }
    }

    /// What it held as the step began, by what was noted then.
    #[inline(always)]
    pub(crate) fn held_before(self, before: &[u64], put: &[Option<u64>]) -> u64
        requires { IsWithin (length before.now) put.now self }
        ensures { result ≡ held_before before.now put.now self }
    {
        match self {
            CellRef::Own(p) => before[p as usize],
            CellRef::Halo(j) => put_at(put, j),
        }
    }

    /// The place of its speed in a list that has the speeds of so many own cells, and then those of the halo.
    #[inline(always)]
    pub(crate) fn speed_place(self, count: usize) -> usize
        requires { count < 2 ^ 63 }
        ensures { result ≡ speed_place count self }
    {
        match self {
            CellRef::Own(p) => p as usize,
            CellRef::Halo(j) => count + j as usize,
        }
    }
}

// What was put for a cell of the halo.
#[inline(always)]
fn put_at(put: &[Option<u64>], j: u32) -> u64
    requires { j < length put.now }
    ensures { result ≡ put_at put.now j }
{
    match put[j as usize] {
        Some(n) => n,
        None => 0,
    }
}

/// Where the region finds the cells of connector `k`, in the order of its fields; that of a link downstream stands twice.
pub(crate) fn refs_of(net: &Net, k: u32, region: &Cells) -> [CellRef; 3]
    requires there { k < length net.now.connectors }
    requires known { AreKnown region.now.order.now.placed region.now.halo.now (connector_at net.now.connectors k) }
    requires increasing { IsStrictlyIncreasing region.now.cells.now }
    requires order { IsOrder region.now.cells.now region.now.order.now }
    requires halo_increasing { IsStrictlyIncreasing region.now.halo.now }
    requires few { length region.now.cells.now < 2 ^ 32 }
    requires few_halo { length region.now.halo.now < 2 ^ 32 }
    ensures { AreRefsOf region.now.order.now.placed region.now.halo.now (connector_at net.now.connectors k) result }
{
    let [a, b, c] = three_cells(net.connectors[k as usize]);
    [ref_of(a, region), ref_of(b, region), ref_of(c, region)]
}

// Where it finds a cell.
fn ref_of(cell: u32, region: &Cells) -> CellRef
    requires known { IsKnown region.now.order.now.placed region.now.halo.now cell }
    requires increasing { IsStrictlyIncreasing region.now.cells.now }
    requires order { IsOrder region.now.cells.now region.now.order.now }
    requires halo_increasing { IsStrictlyIncreasing region.now.halo.now }
    requires few { length region.now.cells.now < 2 ^ 32 }
    requires few_halo { length region.now.halo.now < 2 ^ 32 }
    ensures { IsRefOf region.now.order.now.placed region.now.halo.now cell result }
{
    match own_place(region, cell) {
        Some(own) => CellRef::Own(own),
        None => CellRef::Halo(place(region.halo, cell)),
    }
}
