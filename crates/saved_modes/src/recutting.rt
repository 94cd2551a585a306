ghost use Rattle.std.specs.Prelude.{◌≡◌, ◌<◌, ◌≤◌, All, IfOk, IsOk, Some, length, replicate};
ghost use Rattle.region_cut.specs.Cuttings.{region_count};
ghost use Rattle.region_cut.specs.LawfulSteps.{AreLawful};
ghost use Rattle.region_step.specs.Starting.{Fits, IsTrueStart};
ghost use Rattle.delay_report.specs.Report.{report_of};
ghost use Rattle.saved_modes.specs.Recutting.{IsLastPart, IsPart, step_of};
ghost use Rattle.network_run.specs.ToldParts.{HasToldPart, HasToldParts};

use delay_report::report;
use network_file::Net;
use network_run::regions_from;
use no_memory::NoMemory;
use region_cut::{Cut, Layout};
use region_slots::Observer;
use region_step::{Regions, Setup, Start};
use saved_run::even_start;
use snapshot::goal_at;
use std::alloc::Global;
use std::thread::Threads;

/// The report of a run in as many parts as there are cuttings of the network, by so many workers. The goals divide the
/// steps evenly, rounded down; each part takes the regions of its cutting from the last goal to its own, and one whose
/// goal is the last one again is passed over. Where memory is refused the cuttings are gone.
pub fn recut_report<R: Threads + Sync, W: Observer>(
    rt: &R,
    alloc: Global,
    net: &Net,
    cuts: Vec<Cut>,
    workers: u32,
    observer: &W,
) -> Result<Vec<u8>, NoMemory>
    requires some { 1 ≤ length cuts.items }
    requires few { length cuts.items ≤ 64 }
    requires one_each { All (λ cut. length cut ≡ length net.now.cells) cuts.items }
    requires workers { (1 ≤ workers) × (workers ≤ 16) }

    // That of the plain recurrences, whatever the cuttings.
    ensures text { IfOk result (λ text. text.items ≡ report_of net.now 0) }
    ensures told { IsOk result → HasToldParts (W.told_held observer.now) (W.told_freed observer.now) net.now cuts.items }
{
    let _steps = net.steps;
    let parts = cuts.len() as u32;
    let mut last: Option<Regions<'_>> = None;
    let mut i = 0;
    for cut in cuts {
        i += 1;
        let goal = goal_at(net, parts, i);
        if goal > step_of(&last) {
            last = Some(next_part(rt, alloc, net, last, cut, goal, workers, observer)?);
        }
    }
    let regions = last.unwrap();
    report(alloc, &regions)
}

// The step to which the last part came, 0 before the first.
fn step_of(last: &Option<Regions<'_>>) -> u64
    ensures { result ≡ step_of last.now }
{
    match last {
        Some(regions) => {
            let _setup = regions.setup();
            regions.steps()[0]
        }
        None => 0,
    }
}

// The regions of the part to a goal, in another cutting.
fn next_part<'n, R: Threads + Sync, W: Observer>(
    rt: &R,
    alloc: Global,
    net: &'n Net,
    last: Option<Regions<'n>>,
    cut: Cut,
    goal: u64,
    workers: u32,
    observer: &W,
) -> Result<Regions<'n>, NoMemory>
    requires last { IsLastPart net.now last }
    requires one_each { length cut ≡ length net.now.cells }
    requires later { step_of last < goal }
    requires in_time { goal ≤ net.now.steps }
    requires workers { (1 ≤ workers) × (workers ≤ 16) }
    ensures part { IfOk result (IsPart net.now) }
    ensures goal { IfOk result (λ regions. step_of (Some regions) ≡ goal) }
    ensures told { IsOk result → HasToldPart (W.told_held observer.now) (W.told_freed observer.now) net.now cut (step_of last.entry) goal }
{
    let layout = Layout::new(alloc, net, cut)?;
    let start = part_start(alloc, last, &layout)?;
    let setup = Setup::new(layout, start, 0);
    let regions = regions_from(rt, alloc, setup, goal, workers, observer)?;
    Ok(regions)
}

// Where the regions of a cutting start behind the last part.
fn part_start(alloc: Global, last: Option<Regions<'_>>, layout: &Layout) -> Result<Start, NoMemory>
    requires last { IsLastPart layout.now.net last }
    ensures steps { IfOk result (λ start. start.steps ≡ replicate (region_count layout.now.chart.cut) (step_of last.entry)) }
    ensures fits { IfOk result (λ start. Fits layout.now.net layout.now.chart.cut start) }
    ensures lawful { IfOk result (λ start. AreLawful layout.now.net layout.now.chart.cut start.steps) }
    ensures true_start { IfOk result (λ start. IsTrueStart layout.now.net layout.now.chart.cut start) }
{
    match last {
        Some(regions) => even_start(alloc, &regions, layout),
        None => Start::zero(alloc, layout),
    }
}
