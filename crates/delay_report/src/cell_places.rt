ghost use Rattle.std.specs.Prelude.{◌≡◌, IfOk, length};
ghost use Rattle.delay_report.specs.Places.{AreCellPlaces};

use no_memory::NoMemory;
use region_cut::{Layout, place};
use std::alloc::Global;

/// The place of each cell among the cells of its region.
pub(crate) fn cell_places(alloc: Global, layout: &Layout) -> Result<Vec<u32>, NoMemory>
    ensures { IfOk result (λ places. AreCellPlaces layout.now.chart (length layout.now.chart.cut) places.items) }
{
    let net = layout.net();
    let mut places = Vec::with_capacity(alloc, net.cells.len())?;
    for i in 0..net.cells.len() as u32 {
        let cells = layout.cells(layout.region_of(i));
        places.push(place(cells, i))?;
    }
    Ok(places)
}
