ghost use Rattle.std.specs.Prelude.{◌≡◌, ◌<◌, ◌^◌, All, IfOk, length, map, slice_index, sum};
ghost use Rattle.cut_grow.specs.Grown.{runs_from};

use no_memory::NoMemory;
use std::alloc::Global;

/// The region of each cell in runs of these sizes, by the place of each cell in the order.
pub(crate) fn regions(alloc: Global, sizes: &[u32], places: &[u32]) -> Result<Vec<u32>, NoMemory>
    requires few { length sizes.now < 2 ^ 32 }
    requires long { sum sizes.now < 2 ^ 32 }
    requires there { All (λ p. p < sum sizes.now) places.now }
    ensures { IfOk result (λ regions. regions.items ≡ map (slice_index (runs_from 0 sizes.now)) places.now) }
{
    let runs = runs(alloc, sizes)?;
    let mut regions = Vec::new(alloc);
    for place in places {
        regions.push(runs[*place as usize])?;
    }
    Ok(regions)
}

// The number of its run for each place.
fn runs(alloc: Global, sizes: &[u32]) -> Result<Vec<u32>, NoMemory>
    requires few { length sizes.now < 2 ^ 32 }
    requires long { sum sizes.now < 2 ^ 32 }
    ensures { IfOk result (λ runs. runs.items ≡ runs_from 0 sizes.now) }
{
    let mut runs = Vec::new(alloc);
    for r in 0..sizes.len() as u32 {
        let end = runs.len() + sizes[r as usize] as usize;
        runs.resize(end, r)?;
    }
    Ok(runs)
}
