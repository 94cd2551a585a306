ghost use Rattle.std.specs.Prelude.{◌≡◌, ◌*◌, ◌/◌, ◌<◌, ◌≤◌, IfOk};
ghost use Rattle.region_cut.specs.Cuttings.{even_cutting};

use no_memory::NoMemory;
use std::alloc::Global;

/// The even cutting of so many cells into `k` regions.
pub(crate) fn even_list(alloc: Global, cells: u32, k: u32) -> Result<Vec<u32>, NoMemory>
    requires some { 1 ≤ k }
    requires few { k ≤ cells }
    ensures { IfOk result (λ list. list.items ≡ even_cutting cells k) }
{
    let mut list = Vec::new(alloc);
    for i in 0..cells {
        list.push(even_region(i, cells, k))?;
    }
    Ok(list)
}

// The region of cell `i` of so many, cut evenly into `k` regions.
fn even_region(i: u32, cells: u32, k: u32) -> u32
    requires there { i < cells }
    requires few { k ≤ cells }
    ensures { result ≡ i * k / cells }
{
    (u64::from(i) * u64::from(k) / u64::from(cells)) as u32
}
