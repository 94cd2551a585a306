ghost use Rattle.std.specs.Prelude.{◌≡◌, ◌≤◌};
ghost use Rattle.std.specs.Thread.{IsSync};
ghost use Rattle.region_slots.specs.FieldView.{IsPassOf};
ghost use Rattle.snapshot.specs.Rooms.{IsRoomFor};
ghost use Rattle.region_slots.specs.Moments.{cut_run};
ghost use Rattle.worker_claim.specs.Telling.{AreMembersTold};
ghost use Rattle.worker_claim.specs.Watching.{IsWatched};
ghost use Rattle.sweeping_crew.specs.Members.{AreDriven, AreMembersOf};

use crate::members::crew;
use region_slots::{Field, Observer, Pass, Shot};
use snapshot::ShotRoom;
use std::thread::{Threads, join_mut};
use worker_claim::Member;

/// Has each member drive, as `crew` does, while the watcher takes one shot with so many tries. It tells the observer right
/// before the shot and right after it. Where no thread can be made for the watcher, it shoots when the crew has driven.
pub fn crew_watch<R: Threads + Sync, W: Observer>(
    rt: &R,
    field: &Field,
    watcher: &mut Pass,
    room: &mut ShotRoom,
    tries: u32,
    members: &mut [Member],
    goal: u64,
    sweeps: u32,
    observer: &W,
) -> Shot
    requires watcher { IsPassOf field.now watcher.old }
    requires room { IsRoomFor field.now.terms.setup.now.chart room.old }
    requires tries { 1 ≤ tries }
    requires members { AreMembersOf field.now members.old }
    requires in_time { goal ≤ field.now.terms.setup.now.net.steps }
    ensures watched { IsWatched field.now tries watcher.old watcher.new room.old room.new result }
    ensures driven { AreDriven field.now goal sweeps members.old members.new }
    ensures told { AreMembersTold (W.told_held observer.now (cut_run field.now.terms.setup.now)) (W.told_freed observer.now (cut_run field.now.terms.setup.now)) members.old members.new }
    ensures told_shot { W.told_watching observer.now (cut_run field.now.terms.setup.now) watcher.old.knows.seen × W.told_watched observer.now (cut_run field.now.terms.setup.now) watcher.new.knows.seen result }
{
    let mut shooting = || -> Shot
        requires { IsPassOf field.now watcher.now × IsRoomFor field.now.terms.setup.now.chart room.now × (1 ≤ tries) }
        ensures { IsWatched field.entry.now tries watcher.entry.now watcher.exit.now room.entry.now room.exit.now result
            × W.told_watching observer.entry.now (cut_run field.entry.now.terms.setup.now) watcher.entry.now.knows.seen × W.told_watched observer.entry.now (cut_run field.entry.now.terms.setup.now) watcher.exit.now.knows.seen result }
    {
        let (field, tries, observer) = (field, tries, observer);
        field.watch(watcher, room, tries, observer)
    };
    let mut driving = ||
        requires { IsSync R.row × AreMembersOf field.now members.now × (goal ≤ field.now.terms.setup.now.net.steps) }
        ensures { AreDriven field.entry.now goal sweeps members.entry.now members.exit.now × AreMembersTold (W.told_held observer.entry.now (cut_run field.entry.now.terms.setup.now)) (W.told_freed observer.entry.now (cut_run field.entry.now.terms.setup.now)) members.entry.now members.exit.now }
    {
        let (rt, field, goal, sweeps, observer) = (rt, field, goal, sweeps, observer);
        crew(rt, field, members, goal, sweeps, observer)
    };
    let (shot, ()) = join_mut(rt, &mut shooting, &mut driving);
    shot
}
