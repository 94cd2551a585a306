ghost use Rattle.std.specs.Prelude.{◌≡◌, ◌+◌, ◌≤◌, IfOk, IsOk, All, [], length, vec_capacity};
ghost use Rattle.region_cut.specs.Cuttings.{region_count};
ghost use Rattle.region_slots.specs.FieldView.{IsPassOf};
ghost use Rattle.region_slots.specs.Moments.{AreTold, cut_run};
ghost use Rattle.network_run.specs.Telling.{HasTold, zero_run};
ghost use Rattle.parked_crew.specs.Parking.{HasSeenAll};
ghost use Rattle.parked_crew.specs.Telling.{ArePassesTold};
ghost use Rattle.wait_call.specs.Seats.{HasCome, IsSeat};
ghost use Rattle.region_step.specs.Regions.{AreAtLast};
ghost use Rattle.region_step.specs.Setup.{zero_setup};
ghost use Rattle.region_step.specs.Starting.{IsTrueStart};

use crate::seats::{share_off, unite_all};
use no_memory::NoMemory;
use parked_crew::{Board, parked};
use region_cut::Layout;
use region_slots::{Closed, Field, Observer, Pass};
use region_step::{Regions, Setup};
use std::alloc::Global;
use std::sync::Wait;
use std::thread::Threads;

/// The regions of a layout at the last step, recorded at none, taken there from step 0 by so many workers that wait where
/// they would sweep in vain. The observer is told of each of their steps. All memory is taken before the first step.
pub(crate) fn last_regions<'n, R: Threads + Wait + Sync, W: Observer>(
    rt: &R,
    alloc: Global,
    layout: Layout<'n>,
    workers: u32,
    observer: &W,
) -> Result<Regions<'n>, NoMemory>
    requires workers { (1 ≤ workers) × (workers ≤ 16) }
    ensures setup { IfOk result (λ regions. regions.setup ≡ zero_setup layout.entry 0) }
    ensures true_start { IfOk result (λ regions. IsTrueStart regions.setup.net regions.setup.chart.cut regions.setup.start) }
    ensures last { IfOk result (λ regions. AreAtLast regions) }
    ensures told { IsOk result → HasTold (W.told_held observer.now) (W.told_freed observer.now) (zero_run layout.entry.net layout.entry.chart.cut 0) layout.entry.net.steps }
{
    let net = layout.net();
    let setup = Setup::zero(alloc, layout, 0)?;
    let mut passes = Vec::with_capacity(alloc, workers as usize)?;
    let (field, mut pass) = Field::open(alloc, &setup, workers + 1)?;
    take_to_last(
        rt,
        &field,
        &mut pass,
        &mut passes,
        workers,
        net.steps,
        observer,
    );
    let Closed { steps, regions } = field.close(pass);
    Ok(Regions::new(setup, steps, regions))
}

// Takes all regions to the last step, with a seat for each worker.
fn take_to_last<R: Threads + Wait + Sync, W: Observer>(
    rt: &R,
    field: &Field,
    pass: &mut Pass,
    passes: &mut Vec<Pass>,
    workers: u32,
    last: u64,
    observer: &W,
)
    requires belongs { IsPassOf field.now pass.old }
    requires seats { pass.old.knows.share ≡ workers + 1 }
    requires some { 1 ≤ workers }
    requires reach { pass.old.knows.reach ≤ last }
    requires nobody { passes.old.items ≡ [] }
    requires room { workers ≤ vec_capacity passes.old }
    requires last { last ≡ field.now.terms.setup.now.net.steps }
    ensures belongs { IsPassOf field.now pass.new }
    ensures share { pass.new.knows.share ≡ pass.old.knows.share }
    ensures reach { pass.new.knows.reach ≤ last }
    ensures seen { HasSeenAll (region_count field.now.terms.setup.now.chart.cut) last pass.new.knows }
    ensures told { AreTold (W.told_held observer.now (cut_run field.now.terms.setup.now)) (W.told_freed observer.now (cut_run field.now.terms.setup.now)) pass.old.knows.log pass.new.knows.log }
{
    share_off(field, pass, passes, workers);
    park(rt, field, passes, last, observer);
    unite_all(field, pass, passes);
}

// The same by these passes alone, a worker for each.
fn park<R: Threads + Wait + Sync, W: Observer>(
    rt: &R,
    field: &Field,
    passes: &mut Vec<Pass>,
    last: u64,
    observer: &W,
)
    requires seats { All (IsSeat field.now) passes.old.items }
    requires last { last ≡ field.now.terms.setup.now.net.steps }
    ensures one_each { length passes.new.items ≡ length passes.old.items }
    ensures come { All (HasCome field.now) passes.new.items }
    ensures told { ArePassesTold (W.told_held observer.now (cut_run field.now.terms.setup.now)) (W.told_freed observer.now (cut_run field.now.terms.setup.now)) passes.old.items passes.new.items }
{
    parked(rt, field, passes, last, &Board::new(), observer);
}
