ghost use Rattle.std.specs.Prelude.{◌≡◌, ◌-◌, ◌/◌, ◌<◌, ◌^◌, ◌++◌, ℕ, All, IfOk, length, true};
ghost use Rattle.cell_sweep.specs.SpeedZones.{AreZones};
ghost use Rattle.cell_sweep.specs.Speeds.{is_slow};
ghost use Rattle.region_body.specs.FollowedSpeeds.{AreSpeedsOf, IsSpeedOpened, is_listed};

use crate::followed_speed::FollowedSpeed;
use cell_sweep::{SpeedZone, is_slow, zones_of};
use connector_flow::Ratio;
use network_file::Net;
use no_memory::NoMemory;
use std::alloc::Global;
use timelines::speed_of;

/// The speeds in a region's cells and in those of its halo.
#[derive(Drop)]
pub(crate) struct Speeds {
    /// The speed at each place and then in each cell of the halo, 1/1 until it is followed; none where no cell has speed records.
    pub(crate) now: Vec<Ratio>,
    /// Where own cells lie that have some, in the whole fours before the last.
    pub(crate) zones: Vec<SpeedZone>,
    /// The speeds in these cells as they change.
    pub(crate) timelines: Vec<FollowedSpeed>,
}

/// The speeds of these cells, as they are placed, and of their halo, followed to step 0 and none written yet.
pub(crate) fn speeds_of(
    alloc: Global,
    net: &Net,
    cells: &[u32],
    halo: &[u32],
) -> Result<Speeds, NoMemory>
    requires there { All (λ i. i < length net.now.cells) cells.now }
    requires halo_there { All (λ i. i < length net.now.cells) halo.now }
    requires few { length cells.now < 2 ^ 32 }
    requires few_halo { length halo.now < 2 ^ 32 }
    ensures speeds { IfOk result (λ speeds. (t : ℕ) → AreSpeedsOf net.now (cells.now ++ halo.now) speeds.timelines.items speeds.now.items t 0) }
    ensures zones { IfOk result (λ speeds. AreZones (is_slow net.now cells.now) ((length cells.now - 1) / 4) speeds.zones.items) }
{
    let _steps = net.steps;
    let all = in_one(alloc, cells, halo)?;
    let timelines = timelines_of(alloc, net, &all)?;
    let count = if timelines.is_empty() { 0 } else { all.len() };
    Ok(Speeds {
        now: vec![in alloc; Ratio::new(1, 1); count]?,
        zones: zones_of(alloc, net, cells)?,
        timelines,
    })
}

// These cells, and then those of the halo.
fn in_one(alloc: Global, cells: &[u32], halo: &[u32]) -> Result<Vec<u32>, NoMemory>
    requires few { length cells.now < 2 ^ 32 }
    requires few_halo { length halo.now < 2 ^ 32 }
    ensures { IfOk result (λ all. all.items ≡ cells.now ++ halo.now) }
{
    let mut all = Vec::with_capacity(alloc, cells.len() + halo.len())?;
    all.extend_from_slice(cells)?;
    all.extend_from_slice(halo)?;
    Ok(all)
}

// The speeds in those of these cells that have speed records, at step 0.
fn timelines_of(alloc: Global, net: &Net, cells: &[u32]) -> Result<Vec<FollowedSpeed>, NoMemory>
    requires { All (λ i. i < length net.now.cells) cells.now }
    ensures opened { IfOk result (λ timelines. All (IsSpeedOpened net.now cells.now) timelines.items) }
    ensures whole { IfOk result (λ timelines. (p : ℕ) → p < length cells.now → is_slow net.now cells.now p ≡ true → is_listed timelines.items p ≡ true) }
{
    let _steps = net.steps;
    let mut timelines = Vec::new(alloc);
    for p in 0..cells.len() {
        if is_slow(net, cells, p) {
            timelines.push(FollowedSpeed {
                place: p,
                timeline: speed_of(alloc, &net.plan, cells[p])?,
            })?;
        }
    }
    Ok(timelines)
}
