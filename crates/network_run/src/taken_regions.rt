ghost use Rattle.std.specs.Prelude.{◌≡◌, ◌<◌, ◌≤◌, ℕ, IfOk, IsOk, slice_index};
ghost use Rattle.region_cut.specs.Cuttings.{region_count};
ghost use Rattle.region_slots.specs.Moments.{cut_run};
ghost use Rattle.network_run.specs.Telling.{HasTold, zero_run};
ghost use Rattle.region_step.specs.Regions.{AreAt, AreAtLast};
ghost use Rattle.region_step.specs.Setup.{zero_setup};
ghost use Rattle.region_step.specs.Starting.{IsTrueStart};

use crate::run::Run;
use no_memory::NoMemory;
use region_cut::Layout;
use region_slots::{Closed, Observer};
use region_step::{Regions, Setup};
use std::alloc::Global;
use std::thread::Threads;

/// The regions of a layout at the last step, taken there from step 0 by so many workers. Each is recorded at each step that
/// `every` divides and at the last one, never where `every` is 0. The observer is told of each of its steps. All memory is
/// taken before the first step, but for what the workers' deques may ask for and do without. Where it is refused the layout
/// is gone.
pub fn last_regions<'n, R: Threads + Sync, W: Observer>(
    rt: &R,
    alloc: Global,
    layout: Layout<'n>,
    every: u64,
    workers: u32,
    observer: &W,
) -> Result<Regions<'n>, NoMemory>
    requires workers { (1 ≤ workers) × (workers ≤ 16) }
    ensures setup { IfOk result (λ regions. regions.setup ≡ zero_setup layout.entry every) }
    ensures true_start { IfOk result (λ regions. IsTrueStart regions.setup.net regions.setup.chart.cut regions.setup.start) }
    ensures last { IfOk result AreAtLast }
    ensures told { IsOk result → HasTold (W.told_held observer.now) (W.told_freed observer.now) (zero_run layout.entry.net layout.entry.chart.cut every) layout.entry.net.steps }
{
    let setup = Setup::zero(alloc, layout, every)?;
    let net = setup.layout().net();
    let regions = regions_from(rt, alloc, setup, net.steps, workers, observer)?;
    Ok(regions)
}

/// The regions of a setup at the step `goal`, taken there by so many workers from where they start, none of them past
/// `goal`. Memory is taken as by `last_regions`; where it is refused the setup is gone.
pub fn regions_from<'n, R: Threads + Sync, W: Observer>(
    rt: &R,
    alloc: Global,
    setup: Setup<'n>,
    goal: u64,
    workers: u32,
    observer: &W,
) -> Result<Regions<'n>, NoMemory>
    requires before { (r : ℕ) → r < region_count setup.chart.cut → slice_index setup.start.steps r ≤ goal }
    requires in_time { goal ≤ setup.net.steps }
    requires workers { (1 ≤ workers) × (workers ≤ 16) }
    ensures setup { IfOk result (λ regions. regions.setup ≡ setup.entry) }
    ensures at { IfOk result (λ regions. AreAt regions goal) }
    ensures told { IsOk result → HasTold (W.told_held observer.now) (W.told_freed observer.now) (cut_run setup.entry) goal }
{
    let mut run = Run::open(alloc, &setup, workers)?;
    run.take_to(rt, goal, observer);
    let Closed { steps, regions } = run.close();
    Ok(Regions::new(setup, steps, regions))
}
