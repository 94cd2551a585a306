ghost use Rattle.std.specs.Prelude.{◌≡◌, ◌<◌, ℕ, ◌^◌, All, IfOk, length, map};
ghost use Rattle.std.specs.List.{range_with_len};
ghost use Rattle.region_cut.specs.Chart.{list_at};
ghost use Rattle.region_cut.specs.Gathered.{inside};

use crate::lists::Lists;
use no_memory::NoMemory;
use std::alloc::Global;

/// For each region the cells that its connectors meet and that lie in it.
pub(crate) fn border_by_region(
    alloc: Global,
    cut: &[u32],
    met: &Lists<u32>,
) -> Result<Lists<u32>, NoMemory>
    requires few { length met.now < 2 ^ 32 }
    requires there { (r : ℕ) → r < length met.now → All (λ i. i < length cut.now) (list_at met.now r) }
    ensures { IfOk result (λ lists. lists ≡ map (λ r. inside cut.now r (list_at met.now r)) (range_with_len 0 (length met.now))) }
{
    let mut lists = Lists::new(alloc);
    for r in 0..met.len() as u32 {
        let cells = border(alloc, cut, met.at(r), r)?;
        lists.add(cells)?;
    }
    Ok(lists)
}

// The cells of a list that lie in region `r`.
fn border(alloc: Global, cut: &[u32], met: &[u32], r: u32) -> Result<Vec<u32>, NoMemory>
    requires { All (λ i. i < length cut.now) met.now }
    ensures { IfOk result (λ cells. cells.items ≡ inside cut.now r met.now) }
{
    let mut cells = Vec::new(alloc);
    for cell in met {
        if cut[*cell as usize] == r {
            cells.push(*cell)?;
        }
    }
    Ok(cells)
}
