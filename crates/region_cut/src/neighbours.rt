ghost use Rattle.std.specs.Prelude.{◌≡◌, ◌<◌, ℕ, ◌^◌, All, IfOk, length, map};
ghost use Rattle.std.specs.List.{range_with_len};
ghost use Rattle.region_cut.specs.Chart.{list_at};
ghost use Rattle.region_cut.specs.Gathered.{halo_regions};

use crate::halo::Halo;
use crate::lists::Lists;
use crate::ordered::order;
use no_memory::NoMemory;
use std::alloc::Global;

/// For each region the regions that its halo names.
pub(crate) fn neighbours_by_region(
    alloc: Global,
    halo: &Lists<Halo>,
) -> Result<Lists<u32>, NoMemory>
    requires few { length halo.now < 2 ^ 32 }
    requires there { (r : ℕ) → r < length halo.now → All (λ other. other.region < length halo.now) (list_at halo.now r) }
    ensures { IfOk result (λ lists. lists ≡ map (λ r. halo_regions (length halo.now) (list_at halo.now r)) (range_with_len 0 (length halo.now))) }
{
    let mut lists = Lists::new(alloc);
    for r in 0..halo.len() as u32 {
        let regions = neighbours(alloc, halo.at(r))?;
        lists.add(regions)?;
    }
    Ok(lists)
}

// The regions that a halo names.
fn neighbours(alloc: Global, halo: &[Halo]) -> Result<Vec<u32>, NoMemory>
    ensures { IfOk result (λ regions. (count : ℕ) → All (λ other. other.region < count) halo.now → regions.items ≡ halo_regions count halo.now) }
{
    let mut regions = regions_named(alloc, halo)?;
    order(&mut regions);
    Ok(regions)
}

// The region of each cell of a halo.
fn regions_named(alloc: Global, halo: &[Halo]) -> Result<Vec<u32>, NoMemory>
    ensures { IfOk result (λ regions. regions.items ≡ map (λ other. other.region) halo.now) }
{
    let mut regions = Vec::new(alloc);
    for other in halo {
        regions.push(other.region)?;
    }
    Ok(regions)
}
