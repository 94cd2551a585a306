ghost use Rattle.std.specs.Prelude.{◌≡◌, ◌<◌, ◌^◌, All, IfOk, length};
ghost use Rattle.std.specs.List.Sorted.{IsStrictlyIncreasing};
ghost use Rattle.network_file.specs.Numbered.{connector_at};
ghost use Rattle.plain_region.specs.RegionConnectors.{AreRegionConnectors, IsRefOf, IsRegionConnector};
ghost use Rattle.region_body.specs.Joining.{AreKnown, IsKnown};

use crate::cell_ref::CellRef;
use network_file::Net;
use no_memory::NoMemory;
use region_cut::{place, place_if_listed, three_cells};
use std::alloc::Global;

/// A connector that touches the region, with its cells in the order of its fields; that of a link downstream stands twice.
#[derive(Clone, Copy, Debug)]
pub(crate) struct RegionConnector {
    pub(crate) number: u32,
    pub(crate) cells: [CellRef; 3],
}

/// The connectors of these numbers, whose cells are all known.
pub(crate) fn connectors_of(
    alloc: Global,
    net: &Net,
    numbers: &[u32],
    cells: &[u32],
    halo: &[u32],
) -> Result<Vec<RegionConnector>, NoMemory>
    requires there { All (λ k. k < length net.now.connectors) numbers.now }
    requires known { All (λ k. AreKnown cells.now halo.now (connector_at net.now.connectors k)) numbers.now }
    requires increasing { IsStrictlyIncreasing cells.now }
    requires halo_increasing { IsStrictlyIncreasing halo.now }
    requires few { length cells.now < 2 ^ 32 }
    requires few_halo { length halo.now < 2 ^ 32 }
    ensures { IfOk result (λ connectors. AreRegionConnectors net.now cells.now halo.now numbers.now connectors.items) }
{
    let mut connectors = Vec::new(alloc);
    for k in numbers {
        connectors.push(connector_of(net, *k, cells, halo))?;
    }
    Ok(connectors)
}

// Connector `k`.
fn connector_of(net: &Net, k: u32, cells: &[u32], halo: &[u32]) -> RegionConnector
    requires there { k < length net.now.connectors }
    requires known { AreKnown cells.now halo.now (connector_at net.now.connectors k) }
    requires increasing { IsStrictlyIncreasing cells.now }
    requires halo_increasing { IsStrictlyIncreasing halo.now }
    requires few { length cells.now < 2 ^ 32 }
    requires few_halo { length halo.now < 2 ^ 32 }
    ensures number { result.number ≡ k }
    ensures connector { IsRegionConnector net.now cells.now halo.now result }
{
    let [a, b, c] = three_cells(net.connectors[k as usize]);
    RegionConnector {
        number: k,
        cells: [
            ref_of(a, cells, halo),
            ref_of(b, cells, halo),
            ref_of(c, cells, halo),
        ],
    }
}

// Where the region finds a cell, among its own or in its halo.
fn ref_of(cell: u32, cells: &[u32], halo: &[u32]) -> CellRef
    requires known { IsKnown cells.now halo.now cell }
    requires increasing { IsStrictlyIncreasing cells.now }
    requires halo_increasing { IsStrictlyIncreasing halo.now }
    requires few { length cells.now < 2 ^ 32 }
    requires few_halo { length halo.now < 2 ^ 32 }
    ensures { IsRefOf cells.now halo.now cell result }
{
    match place_if_listed(cells, cell) {
        Some(own) => CellRef::Own(own),
        None => CellRef::Halo(place(halo, cell)),
    }
}
