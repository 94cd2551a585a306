ghost use Rattle.std.specs.Prelude.{◌≡◌, ◌≤◌};
ghost use Rattle.std.specs.Thread.{IsSync};
ghost use Rattle.region_slots.specs.FieldView.{IsPassOf};
ghost use Rattle.snapshot.specs.Rooms.{IsRoomFor};
ghost use Rattle.region_slots.specs.Moments.{cut_run};
ghost use Rattle.worker_claim.specs.Helping.{AreHelped, AreHelpersOf};
ghost use Rattle.worker_claim.specs.Telling.{AreHelpersTold};
ghost use Rattle.worker_claim.specs.Watching.{IsWatched};

use crate::helper::Helper;
use crate::helping::crew_hints;
use region_slots::{Field, Observer, Pass, Shot};
use snapshot::ShotRoom;
use std::thread::{Threads, join_mut};

/// Has each helper make turns, as `crew_hints` does, while the watcher takes one shot with so many tries. It tells the observer
/// right before the shot and right after it. Where no thread can be made for the watcher, it shoots when the crew is done.
pub fn crew_watch_hints<R: Threads + Sync, W: Observer>(
    rt: &R,
    field: &Field,
    watcher: &mut Pass,
    room: &mut ShotRoom,
    tries: u32,
    helpers: &mut [Helper],
    goal: u64,
    sweeps: u32,
    observer: &W,
) -> Shot
    requires watcher { IsPassOf field.now watcher.old }
    requires room { IsRoomFor field.now.terms.setup.now.chart room.old }
    requires tries { 1 ≤ tries }
    requires helpers { AreHelpersOf field.now helpers.old }
    requires in_time { goal ≤ field.now.terms.setup.now.net.steps }
    ensures watched { IsWatched field.now tries watcher.old watcher.new room.old room.new result }
    ensures helped { AreHelped field.now goal sweeps helpers.old helpers.new }
    ensures told { AreHelpersTold (W.told_held observer.now (cut_run field.now.terms.setup.now)) (W.told_freed observer.now (cut_run field.now.terms.setup.now)) helpers.old helpers.new }
    ensures told_shot { W.told_watching observer.now (cut_run field.now.terms.setup.now) watcher.old.knows.seen × W.told_watched observer.now (cut_run field.now.terms.setup.now) watcher.new.knows.seen result }
{
    let mut shooting = || -> Shot
        requires { IsPassOf field.now watcher.now × IsRoomFor field.now.terms.setup.now.chart room.now × (1 ≤ tries) }
        ensures { IsWatched field.entry.now tries watcher.entry.now watcher.exit.now room.entry.now room.exit.now result
            × W.told_watching observer.entry.now (cut_run field.entry.now.terms.setup.now) watcher.entry.now.knows.seen × W.told_watched observer.entry.now (cut_run field.entry.now.terms.setup.now) watcher.exit.now.knows.seen result }
    {
        let (field, tries, observer) = (field, tries, observer);
        field.watch(watcher, room, tries, observer)
    };
    let mut helping = ||
        requires { IsSync R.row × AreHelpersOf field.now helpers.now × (goal ≤ field.now.terms.setup.now.net.steps) }
        ensures { AreHelped field.entry.now goal sweeps helpers.entry.now helpers.exit.now × AreHelpersTold (W.told_held observer.entry.now (cut_run field.entry.now.terms.setup.now)) (W.told_freed observer.entry.now (cut_run field.entry.now.terms.setup.now)) helpers.entry.now helpers.exit.now }
    {
        let (rt, field, goal, sweeps, observer) = (rt, field, goal, sweeps, observer);
        crew_hints(rt, field, helpers, goal, sweeps, observer)
    };
    let (shot, ()) = join_mut(rt, &mut shooting, &mut helping);
    shot
}
