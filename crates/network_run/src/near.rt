ghost use Rattle.std.specs.Prelude.{◌≡◌, ◌≤◌, IfOk, IsOk, length, min};
ghost use Rattle.region_cut.specs.Cuttings.{region_count};
ghost use Rattle.region_step.specs.Start.{zero_start};
ghost use Rattle.snapshot.specs.Rooms.{IsRoomFor};
ghost use Rattle.snapshot.specs.Shots.{AreStepsBetween};
ghost use Rattle.snapshot.specs.Snapshots.{IsSnapshot};
ghost use Rattle.worker_claim.specs.Driving.{AllReach};
ghost use Rattle.region_slots.specs.Moments.{AreTold, cut_run};
ghost use Rattle.network_run.specs.Near.{near_end};
ghost use Rattle.network_run.specs.Telling.{HasTold};

use crate::run::Run;
use no_memory::NoMemory;
use region_cut::Layout;
use region_slots::Observer;
use region_step::Setup;
use snapshot::ShotRoom;
use std::alloc::Global;
use std::thread::Threads;

/// How many steps past a step its snapshot may show a region.
const NEAR: u64 = 4;

/// A room with a snapshot of the regions of a setup near the step `until`, or near the last step where that comes first. So
/// many workers take all regions there from step 0. Then the snapshot is taken while they go on, so it has each region at
/// that step or at most four steps past it. The observer is told of each step up to that last one, to which all regions are
/// taken. What the setup has recorded is thrown away.
pub fn room_near<R: Threads + Sync, W: Observer>(
    rt: &R,
    alloc: Global,
    setup: &Setup,
    until: u64,
    workers: u32,
    observer: &W,
) -> Result<ShotRoom, NoMemory>
    requires workers { (1 ≤ workers) × (workers ≤ 16) }
    requires zero { setup.now.start ≡ zero_start setup.now.net setup.now.chart.cut }
    ensures room { IfOk result (IsRoomFor setup.now.chart) }
    ensures snapshot { IfOk result (IsSnapshot setup.now.net setup.now.chart.cut (zero_start setup.now.net setup.now.chart.cut)) }
    ensures near { IfOk result (λ room. AreStepsBetween setup.now.net setup.now.chart.cut (min until setup.now.net.steps) (near_end setup.now.net until) room.steps) }
    ensures told { IsOk result → HasTold (W.told_held observer.now) (W.told_freed observer.now) (cut_run setup.now) (near_end setup.now.net until) }
{
    let layout = setup.layout();
    let net = layout.net();
    let mut room = ShotRoom::new(alloc, layout)?;
    let mut run = Run::open(alloc, setup, workers)?;
    run.show_near(rt, layout, &mut room, until.min(net.steps), observer);
    // That all came to the step is what its log says.
    let _closed = run.close();
    Ok(room)
}

impl<'a> Run<'a> {
    // Shows all regions of a run from step 0 in a room near the step `from`, after they have all come there.
    fn show_near<R: Threads + Sync, W: Observer>(
        &mut self,
        rt: &R,
        layout: &Layout,
        room: &mut ShotRoom,
        from: u64,
        observer: &W,
    )
        requires network { self.old.terms.setup.now.net ≡ layout.now.net }
        requires start { self.old.terms.setup.now.start ≡ zero_start layout.now.net self.old.terms.setup.now.chart.cut }
        requires room { IsRoomFor self.old.terms.setup.now.chart room.old }
        requires reach { self.old.knows.reach ≡ 0 }
        requires in_time { from ≤ layout.now.net.steps }
        ensures terms { self.new.terms ≡ self.old.terms }
        ensures told { AreTold (W.told_held observer.now (cut_run self.old.terms.setup.now)) (W.told_freed observer.now (cut_run self.old.terms.setup.now)) self.old.knows.log self.new.knows.log }
        ensures done { AllReach (region_count self.old.terms.setup.now.chart.cut) (near_end layout.now.net from) self.new.knows }
        ensures room { IsRoomFor self.old.terms.setup.now.chart room.new }
        ensures snapshot { IsSnapshot layout.now.net self.old.terms.setup.now.chart.cut (zero_start layout.now.net self.old.terms.setup.now.chart.cut) room.new }
        ensures near { AreStepsBetween layout.now.net self.old.terms.setup.now.chart.cut from (near_end layout.now.net from) room.new.steps }
    {
        let net = layout.net();
        self.take_to(rt, from, observer);
        let end = from.saturating_add(NEAR).min(net.steps);
        self.show_on_the_way(rt, room, end, observer);
    }
}
