ghost use Rattle.std.specs.Prelude.{◌≡◌, ◌<◌, ◌^◌, All, [], IfOk, length, map, replicate};
ghost use Rattle.std.specs.List.{range_with_len};
ghost use Rattle.region_cut.specs.Gathered.{inside};

use crate::lists::Lists;
use no_memory::NoMemory;
use std::alloc::Global;

/// The cells of each region.
pub(crate) fn cells_by_region(
    alloc: Global,
    cut: &[u32],
    regions: u32,
) -> Result<Lists<u32>, NoMemory>
    requires numbered { length cut.now < 2 ^ 32 }
    requires there { All (λ region. region < regions) cut.now }
    ensures { IfOk result (λ lists. lists ≡ map (λ r. inside cut.now r (range_with_len 0 (length cut.now))) (range_with_len 0 regions)) }
{
    let mut lists = empty_lists(alloc, regions)?;
    for i in 0..cut.len() as u32 {
        lists.push(cut[i as usize], i)?;
    }
    Ok(lists)
}

/// An empty list for each region.
pub(crate) fn empty_lists(alloc: Global, regions: u32) -> Result<Lists<u32>, NoMemory>
    ensures { IfOk result (λ lists. lists ≡ replicate regions []) }
{
    let mut lists = Lists::new(alloc);
    for _ in 0..regions {
        lists.add(Vec::new(alloc))?;
    }
    Ok(lists)
}
