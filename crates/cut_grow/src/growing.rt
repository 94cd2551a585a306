ghost use Rattle.std.specs.Prelude.{◌≡◌, ◌<◌, ◌≤◌, ◌^◌, IfOk, length};
ghost use Rattle.std.specs.List.{range_with_len};
ghost use Rattle.network_file.specs.declared.limits.TheConstants.{MOST_REGIONS};
ghost use Rattle.network_file.specs.Cutting.{IsCutting};
ghost use Rattle.region_cut.specs.Cuttings.{even_cutting};
ghost use Rattle.cut_grow.specs.CutConnectors.{cuts};
ghost use Rattle.cut_grow.specs.Grown.{IsGrown};

use crate::best::best_in;
use crate::walk::walk;
use network_file::Net;
use no_memory::NoMemory;
use std::alloc::Global;

/// The region of each cell of a grown cutting into `k` regions: in even runs of cells, in the order of the file or of the
/// walk, whichever cuts fewer connectors; of the file where both cut as many (`in_file` of `grown`). Time and memory grow with the number of
/// cells and of connectors, and with the square of `k`.
pub fn grow(alloc: Global, net: &Net, k: u32) -> Result<Vec<u32>, NoMemory>
    requires some { 1 ≤ k }
    requires few { k ≤ MOST_REGIONS }
    requires cells { k ≤ length net.now.cells }
    ensures grown { IfOk result (λ list. IsGrown net.now k list.items) }
    // The even cutting is one of those among which it has the fewest.
    ensures no_more { IfOk result (λ list. cuts list.items net.now ≤ cuts (even_cutting (length net.now.cells) k) net.now) }
    // `Cut::known` takes it.
    ensures cutting { IfOk result (λ list. IsCutting (length net.now.cells) list.items) }
{
    let in_file = best_in(alloc, net, &file_order(alloc, net.cells.len() as u32)?, k)?;
    let in_walk = best_in(alloc, net, &walk(alloc, net)?, k)?;
    if in_walk.kept > in_file.kept {
        Ok(in_walk.regions)
    } else {
        Ok(in_file.regions)
    }
}

// The cells in the order of the file.
fn file_order(alloc: Global, cells: u32) -> Result<Vec<u32>, NoMemory>
    ensures { IfOk result (λ order. order.items ≡ range_with_len 0 cells) }
{
    let mut order = Vec::new(alloc);
    for cell in 0..cells {
        order.push(cell)?;
    }
    Ok(order)
}
