ghost use Rattle.std.specs.Prelude.{◌≡◌, ◌==◌, ◌<◌, ◌^◌, All, IfOk, length, map, not};
ghost use Rattle.std.specs.List.{list_any, range_with_len};
ghost use Rattle.region_cut.specs.Chart.{connectors_of};
ghost use Rattle.region_cut.specs.Cuttings.{region_at};
ghost use Rattle.region_cut.specs.Gathered.{met_by};

use crate::connector_cells::three_cells;
use crate::lists::Lists;
use crate::ordered::order;
use network_file::Net;
use no_memory::NoMemory;
use std::alloc::Global;

/// For each region the cells of the connectors that touch it and another region.
pub(crate) fn met_by_region(
    alloc: Global,
    net: &Net,
    cut: &[u32],
    connectors: &Lists<u32>,
) -> Result<Lists<u32>, NoMemory>
    requires one_each { length cut.now ≡ length net.now.cells }
    requires lists { connectors.now ≡ map (connectors_of net.now cut.now) (range_with_len 0 (length connectors.now)) }
    requires few { length connectors.now < 2 ^ 32 }
    ensures lists { IfOk result (λ lists. lists ≡ map (met_by net.now cut.now) (range_with_len 0 (length connectors.now))) }
    ensures few { IfOk result (λ lists. length lists < 2 ^ 32) }
{
    let mut lists = Lists::new(alloc);
    for r in 0..connectors.len() as u32 {
        let cells = met(alloc, net, cut, connectors.at(r), r)?;
        lists.add(cells)?;
    }
    Ok(lists)
}

// The cells of the connectors that touch region `r` and another region.
fn met(
    alloc: Global,
    net: &Net,
    cut: &[u32],
    connectors: &[u32],
    r: u32,
) -> Result<Vec<u32>, NoMemory>
    requires one_each { length cut.now ≡ length net.now.cells }
    requires list { connectors.now ≡ connectors_of net.now cut.now r }
    ensures { IfOk result (λ cells. cells.items ≡ met_by net.now cut.now r) }
{
    let mut cells = Vec::new(alloc);
    for k in connectors {
        let three = three_cells(net.connectors[*k as usize]);
        if leaves(cut, three, r) {
            cells.extend_from_slice(&three)?;
        }
    }
    order(&mut cells);
    Ok(cells)
}

// Whether one of these cells lies in another region than `r`.
fn leaves(cut: &[u32], cells: [u32; 3], r: u32) -> bool
    requires { All (λ i. i < length cut.now) cells }
    ensures { result ≡ list_any (λ i. not (region_at cut.now i == r)) cells }
{
    let [a, b, c] = cells;
    cut[a as usize] != r || cut[b as usize] != r || cut[c as usize] != r
}
