ghost use Rattle.std.specs.Prelude.{◌≡◌, ◌<◌, ◌^◌, All, IfOk, length, map, slice_index};
ghost use Rattle.std.specs.List.{Contains};
ghost use Rattle.std.specs.List.Sorted.{IsStrictlyIncreasing};
ghost use Rattle.region_step.specs.Opening.{ArePlaces};

use no_memory::NoMemory;
use region_cut::{Halo, place};
use std::alloc::Global;

/// The cells of a halo.
pub fn halo_cells(alloc: Global, halo: &[Halo]) -> Result<Vec<u32>, NoMemory>
    ensures { IfOk result (λ cells. cells.items ≡ map (λ halo. halo.cell) halo.now) }
{
    let mut cells = Vec::new(alloc);
    for other in halo {
        cells.push(other.cell)?;
    }
    Ok(cells)
}

/// The place of each border cell among the region's cells.
pub fn border_places(alloc: Global, border: &[u32], cells: &[u32]) -> Result<Vec<u32>, NoMemory>
    requires inside { All (Contains cells.now) border.now }
    requires increasing { IsStrictlyIncreasing cells.now }
    requires few { length cells.now < 2 ^ 32 }
    ensures { IfOk result (λ places. ArePlaces cells.now border.now places.items) }
{
    let mut places = Vec::new(alloc);
    for i in border {
        places.push(place(cells, *i))?;
    }
    Ok(places)
}
