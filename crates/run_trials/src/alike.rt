ghost use Rattle.std.specs.Prelude.{◌≡◌, ◌<◌};
ghost use Rattle.region_cut.specs.Cuttings.{region_count};
ghost use Rattle.region_step.specs.Opened.{IsIn};
ghost use Rattle.plain_region.specs.Opened.{IsIn as IsInPlain};
ghost use Rattle.run_trials.specs.Rounds.{AllAt};

use crate::rounds::step_all;
use no_memory::NoMemory;
use plain_region::PlainRegion;
use region_cut::Layout;
use region_step::Region;

// Takes both kinds of regions through all steps, and gives the first step at which they differ.
pub(crate) fn first_difference(
    layout: &Layout,
    regions: &mut [Region],
    plain: &mut [PlainRegion],
) -> Result<Option<u64>, NoMemory>
    requires at { AllAt (IsIn layout.now.net layout.now.chart) (λ region. region.state) layout.now.net layout.now.chart 0 regions.old }
    requires plain_at { AllAt (IsInPlain layout.now.net layout.now.chart) (λ region. region.state) layout.now.net layout.now.chart 0 plain.old }
{
    let net = layout.net();
    let steps = net.steps;
    for t in 0..steps {
        if !are_alike(layout, regions, plain, t) {
            return Ok(Some(t));
        }
        step_all(layout, regions, t)?;
        step_all(layout, plain, t)?;
    }
    if are_alike(layout, regions, plain, steps) {
        Ok(None)
    } else {
        Ok(Some(steps))
    }
}

// Whether each region at step `t` has the same rows, occupancies of a step before, border values and notes by both bodies.
fn are_alike(layout: &Layout, regions: &[Region], plain: &[PlainRegion], t: u64) -> bool
    requires at { AllAt (IsIn layout.now.net layout.now.chart) (λ region. region.state) layout.now.net layout.now.chart t regions.now }
    requires plain_at { AllAt (IsInPlain layout.now.net layout.now.chart) (λ region. region.state) layout.now.net layout.now.chart t plain.now }
{
    for r in 0..layout.regions() {
        let region = &regions[r as usize];
        let other = &plain[r as usize];
        if region.step() != other.step()
            || region.trail() != other.trail()
            || !have_same_rows(layout, region, other)
            || !have_same_borders(layout, regions, plain, r, t)
        {
            return false;
        }
    }
    true
}

// Whether a region has the same rows and the same occupancies of a step before.
fn have_same_rows(layout: &Layout, region: &Region, plain: &PlainRegion) -> bool
    requires opened { IsIn layout.now.net layout.now.chart region.now }
    requires plain_opened { IsInPlain layout.now.net layout.now.chart plain.now }
    requires same { plain.now.state.number ≡ region.now.state.number }
{
    let net = layout.net();
    let _steps = net.steps;
    let cells = layout.cells(region.number());
    for i in 0..cells.len() {
        let i = i as u32;
        if region.row(i) != plain.row(i) || region.before(i) != plain.before(i) {
            return false;
        }
    }
    true
}

// Whether each cell of the halo of region `r` holds the same by the border of the region that has it.
fn have_same_borders(
    layout: &Layout,
    regions: &[Region],
    plain: &[PlainRegion],
    r: u32,
    t: u64,
) -> bool
    requires there { r < region_count layout.now.chart.cut }
    requires at { AllAt (IsIn layout.now.net layout.now.chart) (λ region. region.state) layout.now.net layout.now.chart t regions.now }
    requires plain_at { AllAt (IsInPlain layout.now.net layout.now.chart) (λ region. region.state) layout.now.net layout.now.chart t plain.now }
{
    for other in layout.halo(r) {
        let q = other.region as usize;
        if regions[q].border_now(layout, other.place) != plain[q].border_now(layout, other.place) {
            return false;
        }
    }
    true
}
