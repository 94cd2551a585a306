ghost use Rattle.std.specs.Prelude.{◌≡◌, ◌<◌, ◌^◌, IfOk, [], ◌∷◌, length, slice_index};
ghost use Rattle.region_cut.specs.Cuttings.{region_count};
ghost use Rattle.region_step.specs.Advance.{HasRowsInBounds};
ghost use Rattle.region_step.specs.Regions.{HaveCome};
ghost use Rattle.region_step.specs.Standing.{Stands};
ghost use Rattle.plan_choice.specs.Choice.{whole_delay};

use delay_report::run_delay;
use network_file::Net;
use no_memory::NoMemory;
use region_cut::{Cut, Layout};
use region_step::{Region, Regions, Setup};
use std::alloc::Global;

/// The delay of a network that is taken through all its steps in one region.
pub(crate) fn whole_delay(alloc: Global, net: &Net) -> Result<u128, NoMemory>
    ensures delay { IfOk result (λ delay. delay ≡ whole_delay net.now) }
    ensures few { IfOk result (λ delay. delay < 2 ^ 96) }
{
    let steps = vec![in alloc; net.steps; 1]?;
    let layout = Layout::new(alloc, net, whole(alloc, net)?)?;
    let setup = Setup::zero(alloc, layout, 0)?;
    let list = last_regions(alloc, &setup)?;
    run_delay(alloc, &Regions::new(setup, steps, list))
}

// The cutting that has all cells in one region, whatever regions the file gives.
fn whole(alloc: Global, net: &Net) -> Result<Cut, NoMemory>
    ensures one_each { IfOk result (λ cut. length cut ≡ length net.now.cells) }
    ensures one { IfOk result (λ cut. region_count cut ≡ 1) }
{
    let regions = vec![in alloc; 0; net.cells.len()]?;
    Ok(Cut::known(regions))
}

// The one region of a network at the last step, as all of them.
fn last_regions(alloc: Global, setup: &Setup) -> Result<Vec<Region>, NoMemory>
    requires one { region_count setup.now.chart.cut ≡ 1 }
    requires zero { slice_index setup.now.start.steps 0 ≡ 0 }
    ensures { IfOk result (λ regions. HaveCome setup.now (setup.now.net.steps ∷ []) regions.items) }
{
    let mut regions = Vec::new(alloc);
    let mut region = Region::open(alloc, setup.layout(), setup.start(), 0, setup.every())?;
    take_to_end(setup, &mut region);
    regions.push(region)?;
    Ok(regions)
}

// Takes the one region of a network from step 0 to the last step.
fn take_to_end(setup: &Setup, region: &mut Region)
    requires one { region_count setup.now.chart.cut ≡ 1 }
    requires zero { slice_index setup.now.start.steps 0 ≡ 0 }
    requires stands { Stands setup.now 0 0 region.old }
    requires in_bounds { HasRowsInBounds setup.now.net setup.now.chart region.old.state }
    ensures { Stands setup.now 0 setup.now.net.steps region.new }
{
    let layout = setup.layout();
    let net = layout.net();
    let _regions = layout.regions();
    for _step in 0..net.steps {
        region.advance(layout);
    }
}
