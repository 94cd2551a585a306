ghost use Rattle.std.specs.Prelude.{◌≡◌, ◌↔◌, All, IsTrue};
ghost use Rattle.std.specs.List.{list_any};

use crate::crew::Crew;
use region_slots::{Field, Observer, Pass, Shot};
use snapshot::ShotRoom;
use std::thread::Threads;
use worker_claim::{Helper, crew_hints, crew_watch_hints};

/// A member makes as many turns in a round as so many sweeps have, at most.
const SWEEPS: u32 = 4096;

/// How many tries the watcher has at each region beside the crew.
const TRIES: u32 = 64;

impl Crew {
    ghost use Rattle.std.specs.Prelude.{◌≡◌, ◌⊎◌, ◌+◌, ◌-◌, ◌*◌, ◌^◌, ◌≤◌, ℕ, IsTrue, false, length, min};
    ghost use Rattle.region_cut.specs.Cuttings.{region_count};
    ghost use Rattle.snapshot.specs.Rooms.{IsRoomFor};
    ghost use Rattle.region_slots.specs.FieldView.{IsPassOf};
    ghost use Rattle.region_slots.specs.Moments.{cut_run};
    ghost use Rattle.worker_claim.specs.Telling.{AreMembersTold};
    ghost use Rattle.worker_claim.specs.Watching.{IsWatched};
    ghost use Rattle.network_run.specs.Enlisted.{AreEnlisted, IsOver, is_some_done};
    ghost use Rattle.network_run.specs.Rounds.{AreGoing, AreRounds, last_moves, moves_of, watcher_tries};

    /// Has the members make turns in rounds, until one has found all regions at the goal, or none has moved one, or there
    /// were as many rounds as there are steps to take. Each round but the last has moved a region. It gives their number.
    #[tactic(auto, using(crate::proofs::Told::members_none, crate::proofs::Told::members_more))]
    pub(crate) fn drive<R: Threads + Sync, W: Observer>(
        &mut self,
        rt: &R,
        field: &Field,
        goal: u64,
        observer: &W,
    ) -> u64
        requires regions { self.old.regions ≡ region_count field.now.terms.setup.now.chart.cut }
        requires enlisted { AreEnlisted field.now goal self.old.members }
        requires in_time { goal ≤ field.now.terms.setup.now.net.steps }
        ensures same { (self.new.workers ≡ self.old.workers) × (self.new.regions ≡ self.old.regions) }
        ensures many { length self.new.members ≡ length self.old.members }
        ensures enlisted { AreEnlisted field.now goal self.new.members }
        ensures told { AreMembersTold (W.told_held observer.now (cut_run field.now.terms.setup.now)) (W.told_freed observer.now (cut_run field.now.terms.setup.now)) self.old.members self.new.members }
        ensures rounds { AreRounds field.now result 1 self.old.members self.new.members }
        ensures few { result ≤ region_count field.now.terms.setup.now.chart.cut * goal }
        ensures over { IsOver self.new.members ⊎ (result ≡ min (region_count field.now.terms.setup.now.chart.cut * goal) (2 ^ 64 - 1)) }
    {
        let most = u64::from(field.regions()).saturating_mul(goal);
        for round in 0..most {
            self.drive_round(rt, field, goal, observer);
            if self.is_over() {
                return round + 1;
            }
        }
        most
    }

    // One round.
    fn drive_round<R: Threads + Sync, W: Observer>(
        &mut self,
        rt: &R,
        field: &Field,
        goal: u64,
        observer: &W,
    )
        requires regions { self.old.regions ≡ region_count field.now.terms.setup.now.chart.cut }
        requires enlisted { AreEnlisted field.now goal self.old.members }
        requires in_time { goal ≤ field.now.terms.setup.now.net.steps }
        ensures same { (self.new.workers ≡ self.old.workers) × (self.new.regions ≡ self.old.regions) }
        ensures many { length self.new.members ≡ length self.old.members }
        ensures enlisted { AreEnlisted field.now goal self.new.members }
        ensures round { AreRounds field.now 1 1 self.old.members self.new.members }
        ensures told { AreMembersTold (W.told_held observer.now (cut_run field.now.terms.setup.now)) (W.told_freed observer.now (cut_run field.now.terms.setup.now)) self.old.members self.new.members }
        ensures moves { moves_of self.new.members ≡ moves_of self.old.members + last_moves self.new.members }
    {
        crew_hints(rt, field, &mut self.helpers, goal, SWEEPS, observer);
    }

    /// The same, the first round beside a shot.
    pub(crate) fn drive_watched<R: Threads + Sync, W: Observer>(
        &mut self,
        rt: &R,
        field: &Field,
        watcher: &mut Pass,
        room: &mut ShotRoom,
        goal: u64,
        observer: &W,
    ) -> Shot
        requires regions { self.old.regions ≡ region_count field.now.terms.setup.now.chart.cut }
        requires watcher { IsPassOf field.now watcher.old }
        requires room { IsRoomFor field.now.terms.setup.now.chart room.old }
        requires enlisted { AreEnlisted field.now goal self.old.members }
        requires in_time { goal ≤ field.now.terms.setup.now.net.steps }
        ensures same { (self.new.workers ≡ self.old.workers) × (self.new.regions ≡ self.old.regions) }
        ensures watched { IsWatched field.now watcher_tries watcher.old watcher.new room.old room.new result }
        ensures many { length self.new.members ≡ length self.old.members }
        ensures enlisted { AreEnlisted field.now goal self.new.members }
        ensures told { AreMembersTold (W.told_held observer.now (cut_run field.now.terms.setup.now)) (W.told_freed observer.now (cut_run field.now.terms.setup.now)) self.old.members self.new.members }
        ensures told_shot { W.told_watching observer.now (cut_run field.now.terms.setup.now) watcher.old.knows.seen × W.told_watched observer.now (cut_run field.now.terms.setup.now) watcher.new.knows.seen result }
        ensures rounds { (rounds : ℕ) × AreRounds field.now rounds 2 self.old.members self.new.members }
    {
        let shot = self.watch_round(rt, field, watcher, room, goal, observer);
        // A member that moved nothing may have met the watcher alone.
        if !self.is_done() {
            self.drive(rt, field, goal, observer);
        }
        shot
    }

    // One round beside a shot.
    fn watch_round<R: Threads + Sync, W: Observer>(
        &mut self,
        rt: &R,
        field: &Field,
        watcher: &mut Pass,
        room: &mut ShotRoom,
        goal: u64,
        observer: &W,
    ) -> Shot
        requires regions { self.old.regions ≡ region_count field.now.terms.setup.now.chart.cut }
        requires watcher { IsPassOf field.now watcher.old }
        requires room { IsRoomFor field.now.terms.setup.now.chart room.old }
        requires enlisted { AreEnlisted field.now goal self.old.members }
        requires in_time { goal ≤ field.now.terms.setup.now.net.steps }
        ensures same { (self.new.workers ≡ self.old.workers) × (self.new.regions ≡ self.old.regions) }
        ensures watched { IsWatched field.now watcher_tries watcher.old watcher.new room.old room.new result }
        ensures many { length self.new.members ≡ length self.old.members }
        ensures enlisted { AreEnlisted field.now goal self.new.members }
        ensures told { AreMembersTold (W.told_held observer.now (cut_run field.now.terms.setup.now)) (W.told_freed observer.now (cut_run field.now.terms.setup.now)) self.old.members self.new.members }
        ensures told_shot { W.told_watching observer.now (cut_run field.now.terms.setup.now) watcher.old.knows.seen × W.told_watched observer.now (cut_run field.now.terms.setup.now) watcher.new.knows.seen result }
        ensures round { AreRounds field.now 1 1 self.old.members self.new.members }
    {
        crew_watch_hints(
            rt,
            field,
            watcher,
            room,
            TRIES,
            &mut self.helpers,
            goal,
            SWEEPS,
            observer,
        )
    }

    // Whether a member has found all regions at the goal, or none has moved one.
    fn is_over(&self) -> bool
        ensures over { IsTrue result → IsOver self.now.members }
        ensures going { result ≡ false → AreGoing self.now.members }
    {
        self.is_done() || none_moved(&self.helpers)
    }

    // Whether a member has found all regions at the goal.
    fn is_done(&self) -> bool
        ensures { result ≡ is_some_done self.now.members }
    {
        some_done(&self.helpers)
    }
}

// Whether one of the helpers has found all regions at the goal.
fn some_done(helpers: &[Helper]) -> bool
    ensures { result ≡ list_any (λ helper. helper.member.driven.all) helpers.now }
{
    helpers.iter().any(|helper| helper.member.driven.all)
}

// Whether none of the helpers has moved a region.
fn none_moved(helpers: &[Helper]) -> bool
    ensures { IsTrue result ↔ All (λ helper. helper.member.driven.moved ≡ 0) helpers.now }
{
    helpers.iter().all(|helper| helper.member.driven.moved == 0)
}
