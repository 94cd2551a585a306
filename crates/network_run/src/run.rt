use crate::crew::Crew;
use no_memory::NoMemory;
use region_slots::{Closed, Field, Observer, Pass, Shot};
use region_step::Setup;
use snapshot::ShotRoom;
use std::alloc::Global;
use std::marker::Model;
use std::thread::Threads;
use worker_claim::finish;

/// A field of regions with the pass that has all of its seats, and the crew that takes them on, of which nobody is a member
/// between two calls.
#[derive(Drop)]
pub(crate) struct Run<'a> {
    field: Field<'a>,
    pass: Pass,
    crew: Crew,
}

impl<'a> Model for Run<'a> {
    ghost use Rattle.std.specs.Prelude.{◌≡◌, ◌+◌, ◌≤◌, []};
    ghost use Rattle.region_cut.specs.Cuttings.{region_count};
    ghost use Rattle.region_slots.specs.FieldView.{IsPassOf};
    ghost use Rattle.network_run.specs.Run.{RunValue};

    ghost Value = { RunValue };

    ghost view = { λ run. record { terms = run.field.terms; knows = run.pass.knows } };

    ghost invariant = { λ run. IsPassOf run.field run.pass × (run.pass.knows.share ≡ run.crew.workers + 1)
        × (run.pass.knows.share ≡ run.field.terms.seats) × (1 ≤ run.crew.workers)
        × (run.crew.regions ≡ region_count run.field.terms.setup.now.chart.cut) × (run.crew.members ≡ []) };
}

impl<'a> Run<'a> {
    ghost use Rattle.std.specs.Prelude.{◌≡◌, ◌+◌, ◌<◌, ◌≤◌, ℕ, List, IfOk, max, slice_index};
    ghost use Rattle.region_cut.specs.Cuttings.{region_count};
    ghost use Rattle.snapshot.specs.Rooms.{IsRoomFor};
    ghost use Rattle.snapshot.specs.Snapshots.{IsSnapshot};
    ghost use Rattle.region_slots.specs.Opening.{first_view};
    ghost use Rattle.worker_claim.specs.Driving.{AllReach};
    ghost use Rattle.region_slots.specs.Moments.{AreTold, cut_run};
    ghost use Rattle.region_slots.specs.declared.shot.Shot.TheVariants.{Taken};
    ghost use Rattle.network_run.specs.Run.{AreWhereTheyCame, IsLoggedWhereTheyCame};
    ghost use Rattle.region_step.specs.Regions.{HaveCome};

    /// A run of the regions of a setup by so many workers.
    pub(crate) fn open(
        alloc: Global,
        setup: &'a Setup<'a>,
        workers: u32,
    ) -> Result<Run<'a>, NoMemory>
        requires workers { (1 ≤ workers) × (workers ≤ 16) }
        ensures terms { IfOk result (λ run. run.terms ≡ record { setup = setup.entry; seats = workers + 1 }) }
        ensures knows { IfOk result (λ run. run.knows ≡ first_view run.terms) }
    {
        let crew = Crew::new(alloc, workers, setup.layout().regions())?;
        let (field, pass) = Field::open(alloc, setup, workers + 1)?;
        Ok(Run { field, pass, crew })
    }

    /// Takes all regions to a goal.
    pub(crate) fn take_to<R: Threads + Sync, W: Observer>(
        &mut self,
        rt: &R,
        goal: u64,
        observer: &W,
    )
        requires in_time { goal ≤ self.old.terms.setup.now.net.steps }
        requires reach { self.old.knows.reach ≤ goal }
        ensures terms { self.new.terms ≡ self.old.terms }
        ensures reach { self.new.knows.reach ≤ goal }
        ensures told { AreTold (W.told_held observer.now (cut_run self.old.terms.setup.now)) (W.told_freed observer.now (cut_run self.old.terms.setup.now)) self.old.knows.log self.new.knows.log }
        ensures done { AllReach (region_count self.old.terms.setup.now.chart.cut) goal self.new.knows }
    {
        self.crew.enlist(&self.field, &mut self.pass);
        self.crew.drive(rt, &self.field, goal, observer);
        self.crew.dismiss(&self.field, &mut self.pass);
        finish(&self.field, &mut self.pass, goal, observer);
    }

    /// The same, and shows all regions in a room once on the way, or at the goal where another seat had one of them at each of
    /// the tries.
    pub(crate) fn show_on_the_way<R: Threads + Sync, W: Observer>(
        &mut self,
        rt: &R,
        room: &mut ShotRoom,
        goal: u64,
        observer: &W,
    )
        requires room { IsRoomFor self.old.terms.setup.now.chart room.old }
        requires in_time { goal ≤ self.old.terms.setup.now.net.steps }
        requires reach { self.old.knows.reach ≤ goal }
        ensures terms { self.new.terms ≡ self.old.terms }
        ensures room { IsRoomFor self.old.terms.setup.now.chart room.new }
        ensures reach { self.new.knows.reach ≤ goal }
        ensures told { AreTold (W.told_held observer.now (cut_run self.old.terms.setup.now)) (W.told_freed observer.now (cut_run self.old.terms.setup.now)) self.old.knows.log self.new.knows.log }
        ensures done { AllReach (region_count self.old.terms.setup.now.chart.cut) goal self.new.knows }
        ensures snapshot { IsSnapshot self.old.terms.setup.now.net self.old.terms.setup.now.chart.cut self.old.terms.setup.now.start room.new }
        ensures told_before { (before : List ℕ) × W.told_watching observer.now (cut_run self.old.terms.setup.now) before
            × ((r : ℕ) → r < region_count self.old.terms.setup.now.chart.cut → (slice_index self.old.knows.seen r ≤ slice_index before r) × (slice_index before r ≤ slice_index room.new.steps r)) }
        ensures told_after { W.told_watched observer.now (cut_run self.old.terms.setup.now) room.new.steps Taken }
        ensures between { (r : ℕ) → r < region_count self.old.terms.setup.now.chart.cut → (slice_index self.old.knows.seen r ≤ slice_index room.new.steps r)
            × (slice_index room.new.steps r ≤ max (slice_index self.old.terms.setup.now.start.steps r) goal) }
    {
        self.crew.enlist(&self.field, &mut self.pass);
        let shot = self
            .crew
            .drive_watched(rt, &self.field, &mut self.pass, room, goal, observer);
        self.crew.dismiss(&self.field, &mut self.pass);
        finish(&self.field, &mut self.pass, goal, observer);
        if let Shot::Busy { region: _ } = shot {
            self.field.watch(&mut self.pass, room, 1, observer);
        }
    }

    /// The step of each region, and the regions, which have come there from where they start.
    pub(crate) fn close(self) -> Closed
        ensures come { HaveCome self.entry.terms.setup.now result.steps.items result.regions.items }
        ensures steps { AreWhereTheyCame self.entry result.steps.items }
        ensures logged { IsLoggedWhereTheyCame self.entry }
    {
        let Run {
            field,
            pass,
            crew: _,
        } = self;
        field.close(pass)
    }
}
