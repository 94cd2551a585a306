ghost use Rattle.std.specs.Prelude.{◌≡◌, ◌≢◌, ◌+◌, ◌<◌, ℕ, IfOk, OnOk, length, slice_index, slice_index_or};
ghost use Rattle.region_cut.specs.Chart.{list_at};
ghost use Rattle.region_cut.specs.Cuttings.{region_count};
ghost use Rattle.region_step.specs.Starting.{Fits};
ghost use Rattle.run_trials.specs.Rounds.{AllAt, AllTold, IsTold};

use crate::bodies::Body;
use no_memory::NoMemory;
use region_cut::Layout;
use region_step::Start;
use std::alloc::Global;

// All regions of a start at step 0.
pub(crate) fn open_all<B: Body>(
    alloc: Global,
    layout: &Layout,
    start: &Start,
    every: u64,
) -> Result<Vec<B>, NoMemory>
    requires fits { Fits layout.now.net layout.now.chart.cut start.now }
    requires at_first { (q : ℕ) → slice_index start.now.steps q ≡ 0 }
    ensures { IfOk result (λ bodies. AllAt (B.is_in layout.now.net layout.now.chart) B.state layout.now.net layout.now.chart 0 bodies.items) }
{
    let mut bodies = Vec::new(alloc);
    for r in 0..layout.regions() {
        bodies.push(B::opened(alloc, layout, start, r, every)?)?;
    }
    Ok(bodies)
}

// Takes all regions through step `t`: each is told what its halo holds, by the borders of the others, and then each is advanced.
pub(crate) fn step_all<B: Body>(layout: &Layout, bodies: &mut [B], t: u64) -> Result<(), NoMemory>
    requires in_time { t < layout.now.net.steps }
    requires at { AllAt (B.is_in layout.now.net layout.now.chart) B.state layout.now.net layout.now.chart t bodies.old }
    ensures { OnOk result (AllAt (B.is_in layout.now.net layout.now.chart) B.state layout.now.net layout.now.chart (t + 1) bodies.new) }
{
    for r in 0..layout.regions() {
        tell_halo(layout, bodies, r, t);
    }
    advance_all(layout, bodies, t)
}

// Tells region `r` at step `t` what each cell of its halo holds.
fn tell_halo<B: Body>(layout: &Layout, bodies: &mut [B], r: u32, t: u64)
    requires there { r < region_count layout.now.chart.cut }
    requires at { AllAt (B.is_in layout.now.net layout.now.chart) B.state layout.now.net layout.now.chart t bodies.old }
    ensures at { AllAt (B.is_in layout.now.net layout.now.chart) B.state layout.now.net layout.now.chart t bodies.new }
    ensures told { (body : _) → IsTold layout.now.net layout.now.chart (length (list_at layout.now.chart.halo r)) (B.state (slice_index_or bodies.new r body)) }
    ensures others { (q : ℕ) (body : _) → q ≢ r → slice_index_or bodies.new q body ≡ slice_index_or bodies.old q body }
{
    let net = layout.net();
    let (_steps, _regions) = (net.steps, layout.regions());
    let halo = layout.halo(r);
    for j in 0..halo.len() {
        let other = halo[j];
        let n = bodies[other.region as usize].at_border(layout, other.place);
        bodies[r as usize].tell(j as u32, n);
    }
}

// Takes all regions, whose halos are told, through step `t`.
fn advance_all<B: Body>(layout: &Layout, bodies: &mut [B], t: u64) -> Result<(), NoMemory>
    requires in_time { t < layout.now.net.steps }
    requires at { AllAt (B.is_in layout.now.net layout.now.chart) B.state layout.now.net layout.now.chart t bodies.old }
    requires told { AllTold B.state layout.now.net layout.now.chart (length bodies.old) bodies.old }
    ensures { OnOk result (AllAt (B.is_in layout.now.net layout.now.chart) B.state layout.now.net layout.now.chart (t + 1) bodies.new) }
{
    for r in 0..bodies.len() {
        bodies[r].take_step(layout)?;
    }
    Ok(())
}
