ghost use Rattle.std.specs.Prelude.{◌≡◌, ◌+◌, ◌<◌, ◌≤◌, ◌^◌, IfOk, IsOk, []};
ghost use Rattle.region_cut.specs.Cuttings.{region_count};
ghost use Rattle.region_step.specs.Regions.{AreAtLast};
ghost use Rattle.region_step.specs.Start.{zero_start};
ghost use Rattle.snapshot.specs.Rooms.{IsRoomFor};
ghost use Rattle.worker_claim.specs.Driving.{AllReach};
ghost use Rattle.region_slots.specs.Moments.{AreTold, cut_run};
ghost use Rattle.network_run.specs.Telling.{HasTold};
ghost use Rattle.network_run.specs.ToldShots.{AreToldShots};

use crate::run::Run;
use no_memory::NoMemory;
use region_cut::Layout;
use region_slots::{Closed, Observer};
use region_step::{Regions, Setup};
use shot_lines::shot_text;
use snapshot::{ShotRoom, goal_at};
use std::alloc::Global;
use std::thread::Threads;

/// What comes of a run that is watched.
#[derive(Drop)]
pub struct Watched<'n> {
    /// The text of its shots (docs/FORMAT.md, "The shots").
    pub shots: Vec<u8>,
    /// Its regions at the last step.
    pub regions: Regions<'n>,
}

/// The regions of a setup at the last step, taken there from step 0 by so many workers, with so many shots on the way. The
/// goals divide the steps evenly, rounded down; each shot is taken between a goal and the next, and at no step past it. All
/// memory but that of the text is taken before the first step, but for what the workers' deques may ask for and do without.
/// Where it is refused the setup is gone.
pub fn watched_regions<'n, R: Threads + Sync, W: Observer>(
    rt: &R,
    alloc: Global,
    setup: Setup<'n>,
    workers: u32,
    shots: u32,
    observer: &W,
) -> Result<Watched<'n>, NoMemory>
    requires zero { setup.start ≡ zero_start setup.net setup.chart.cut }
    requires workers { (1 ≤ workers) × (workers ≤ 16) }
    requires shots { (1 ≤ shots) × (shots + 1 < 2 ^ 32) }
    ensures setup { IfOk result (λ watched. watched.regions.setup ≡ setup.entry) }
    ensures last { IfOk result (λ watched. AreAtLast watched.regions) }
    ensures shots { IfOk result (λ watched. AreToldShots (W.told_watching observer.now) (W.told_watched observer.now) (cut_run setup.entry) shots watched.shots.items) }
    ensures told { IsOk result → HasTold (W.told_held observer.now) (W.told_freed observer.now) (cut_run setup.entry) setup.entry.net.steps }
{
    let mut room = ShotRoom::new(alloc, setup.layout())?;
    let mut run = Run::open(alloc, &setup, workers)?;
    let mut text = Vec::new(alloc);
    run.take_shots(rt, setup.layout(), &mut room, shots, observer, &mut text)?;
    let Closed { steps, regions } = run.close();
    Ok(Watched {
        shots: text,
        regions: Regions::new(setup, steps, regions),
    })
}

impl<'a> Run<'a> {
    // Takes all regions of a run from step 0 to the last step, and appends the text of so many shots on the way.
    fn take_shots<R: Threads + Sync, W: Observer>(
        &mut self,
        rt: &R,
        layout: &Layout,
        room: &mut ShotRoom,
        shots: u32,
        observer: &W,
        text: &mut Vec<u8>,
    ) -> Result<(), NoMemory>
        requires network { (self.old.terms.setup.now.net ≡ layout.now.net) × (self.old.terms.setup.now.chart ≡ layout.now.chart) }
        requires start { self.old.terms.setup.now.start ≡ zero_start layout.now.net layout.now.chart.cut }
        requires shots { (1 ≤ shots) × (shots + 1 < 2 ^ 32) }
        requires room { IsRoomFor layout.now.chart room.old }
        requires reach { self.old.knows.reach ≡ 0 }
        requires nothing { text.old.items ≡ [] }
        ensures terms { IsOk result → self.new.terms ≡ self.old.terms }
        ensures reach { IsOk result → self.new.knows.reach ≤ layout.now.net.steps }
        ensures told { IsOk result → AreTold (W.told_held observer.now (cut_run self.old.terms.setup.now)) (W.told_freed observer.now (cut_run self.old.terms.setup.now)) self.old.knows.log self.new.knows.log }
        ensures last { IsOk result → AllReach (region_count layout.now.chart.cut) layout.now.net.steps self.new.knows }
        ensures shots { IsOk result → AreToldShots (W.told_watching observer.now) (W.told_watched observer.now) (cut_run self.old.terms.setup.now) shots text.new.items }
    {
        let net = layout.net();
        let _steps = net.steps;
        for i in 0..shots {
            let goal = goal_at(net, shots, i + 1);
            self.show_on_the_way(rt, room, goal, observer);
            shot_text(layout, room, i + 1, text)?;
        }
        Ok(())
    }
}
