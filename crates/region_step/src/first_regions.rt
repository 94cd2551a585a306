ghost use Rattle.std.specs.Prelude.{◌≡◌, IfOk};
ghost use Rattle.region_step.specs.Setup.{setup_of};
ghost use Rattle.region_step.specs.Standing.{AllStand};
ghost use Rattle.region_step.specs.Starting.{Fits};

use crate::region::Region;
use crate::setup::Setup;
use crate::start::Start;
use no_memory::NoMemory;
use region_cut::Layout;
use std::alloc::Global;

/// All regions of a setup, each at the step where it starts.
pub fn open_regions(alloc: Global, setup: &Setup) -> Result<Vec<Region>, NoMemory>
    ensures { IfOk result (λ regions. AllStand setup.now setup.now.start.steps regions.items) }
{
    open_all(alloc, setup.layout(), setup.start(), setup.every())
}

// All regions of a start.
fn open_all(
    alloc: Global,
    layout: &Layout,
    start: &Start,
    every: u64,
) -> Result<Vec<Region>, NoMemory>
    requires { Fits layout.now.net layout.now.chart.cut start.now }
    ensures { IfOk result (λ regions. AllStand (setup_of layout.now start.now every) start.now.steps regions.items) }
{
    let mut regions = Vec::new(alloc);
    for r in 0..layout.regions() {
        regions.push(Region::open(alloc, layout, start, r, every)?)?;
    }
    Ok(regions)
}
