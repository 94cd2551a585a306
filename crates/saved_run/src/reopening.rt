ghost use Rattle.std.specs.Prelude.{◌≡◌, ◌<◌, ℕ, IfOk, slice_index_or};
ghost use Rattle.region_cut.specs.Cuttings.{region_count};
ghost use Rattle.region_cut.specs.LawfulSteps.{AreLawful};
ghost use Rattle.region_step.specs.Region.{RegionValue};
ghost use Rattle.region_step.specs.Regions.{AreAt};
ghost use Rattle.region_step.specs.Starting.{Fits, IsTrueStart};
ghost use Rattle.snapshot.specs.Rooms.{IsRoomFor, ShowsRegion};
ghost use Rattle.saved_run.specs.EvenStart.{IsEvenStart, IsTrueBelow};

use no_memory::NoMemory;
use region_cut::Layout;
use region_step::{Regions, Start};
use snapshot::ShotRoom;
use std::alloc::Global;

/// Where a run goes on in another cutting of the network, from regions that are all at one step: all regions of the new
/// cutting start there.
pub fn even_start(alloc: Global, old: &Regions, new: &Layout) -> Result<Start, NoMemory>
    requires one_network { new.now.net ≡ old.now.setup.net }
    requires even { (u : ℕ) × AreAt old.now u }
    ensures start { IfOk result (λ even. (u : ℕ) → AreAt old.now u → IsEvenStart old.now.setup.chart old.now.list u new.now.chart.cut even) }
    ensures fits { IfOk result (λ even. Fits new.now.net new.now.chart.cut even) }
    ensures lawful { IfOk result (λ even. AreLawful new.now.net new.now.chart.cut even.steps) }

    // Regions of a true start, each opened below the step or at step 0, go on from a true start.
    ensures true_start { IfOk result (λ even. (u : ℕ) → AreAt old.now u →
        IsTrueBelow old.now.setup.net old.now.setup.chart.cut old.now.setup.start u → IsTrueStart new.now.net new.now.chart.cut even) }
{
    let setup = old.setup();
    let _start = setup.start();
    let net = setup.layout().net();
    let _steps = net.steps;
    let room = room_of(alloc, old)?;
    let step = old.steps()[0];
    let steps = vec![in alloc; step; new.regions() as usize]?;
    let rows = room.rows().to_vec(alloc)?;
    let earlier = room.earlier().to_vec(alloc)?;
    Ok(Start {
        steps,
        rows,
        earlier,
    })
}

// A room that shows all regions, each at its step.
fn room_of(alloc: Global, regions: &Regions) -> Result<ShotRoom, NoMemory>
    ensures room { IfOk result (IsRoomFor regions.now.setup.chart) }
    ensures shows { IfOk result (λ room. (r : ℕ) (region : RegionValue) → r < region_count regions.now.setup.chart.cut →
        ShowsRegion regions.now.setup.chart room (slice_index_or regions.now.list r region)) }
{
    let layout = regions.setup().layout();
    let _regions = layout.regions();
    let list = regions.list();
    let mut room = ShotRoom::new(alloc, layout)?;
    for r in 0..list.len() {
        room.fill(layout, &list[r]);
    }
    Ok(room)
}
