use crate::field::{Field, Pass};
use crate::observer::Observer;
use crate::sight::{Watched, Watching};
use atomic_table::Seat;
use border_rows::View;
use region_step::Region;
use snapshot::ShotRoom;

/// What came of a shot.
#[derive(Clone, Copy, Debug, PartialEq, Eq)]
pub enum Shot {
    /// The room shows all regions.
    Taken,
    /// Someone else had this region at each of the tries, and the room is as it was.
    Busy { region: u32 },
}

impl<'a> Field<'a> {
    ghost use Rattle.std.specs.Prelude.{◌≡◌, ◌≤◌};
    ghost use Rattle.region_cut.specs.Cuttings.{region_count};
    ghost use Rattle.snapshot.specs.Rooms.{IsRoomFor};
    ghost use Rattle.region_slots.specs.FieldView.{HasCounts, HasSeenInTime, IsIdle, IsPassOf, IsSeatOf};
    ghost use Rattle.region_slots.specs.Moments.{cut_run};
    ghost use Rattle.region_slots.specs.Shooting.{IsShotOf};

    /// Shows all regions in a room, each at the step at which it stands: takes them in order of number, each with so many
    /// tries at most, copies them all and gives them all back.
    pub fn shot(&self, pass: &mut Pass, room: &mut ShotRoom, tries: u32) -> Shot
        requires belongs { IsPassOf self.now pass.old }
        requires room { IsRoomFor self.now.terms.setup.now.chart room.old }
        requires tries { 1 ≤ tries }
        ensures belongs { IsPassOf self.now pass.new × (pass.new.id ≡ pass.old.id) }
        ensures shot { IsShotOf self.now.terms tries pass.old.knows pass.new.knows room.old room.new result }
    {
        self.shoots(&mut pass.seat, room, tries)
    }

    /// The same, told to the observer right before it and right after it.
    pub fn watch<W: Observer>(
        &self,
        pass: &mut Pass,
        room: &mut ShotRoom,
        tries: u32,
        observer: &W,
    ) -> Shot
        requires belongs { IsPassOf self.now pass.old }
        requires room { IsRoomFor self.now.terms.setup.now.chart room.old }
        requires tries { 1 ≤ tries }
        ensures belongs { IsPassOf self.now pass.new × (pass.new.id ≡ pass.old.id) }
        ensures shot { IsShotOf self.now.terms tries pass.old.knows pass.new.knows room.old room.new result }
        ensures told_before { W.told_watching observer.now (cut_run self.now.terms.setup.now) pass.old.knows.seen }
        ensures told_after { W.told_watched observer.now (cut_run self.now.terms.setup.now) pass.new.knows.seen result }
    {
        observer.watching(Watching::before(&*self, pass));
        let shot = self.shot(pass, room, tries);
        observer.watched(Watched::after(&*self, pass, shot));
        shot
    }

    // A shot by a seat.
    fn shoots(
        &self,
        seat: &mut Seat<Region, View<'static>>,
        room: &mut ShotRoom,
        tries: u32,
    ) -> Shot
        requires seat { IsSeatOf self.now seat.old }
        requires idle { IsIdle seat.old.me.0 seat.old.me.1 }
        requires counts { HasCounts (region_count self.now.terms.setup.now.chart.cut) seat.old.me.0 }
        requires in_time { HasSeenInTime self.now.terms seat.old.me.0 }
        requires room { IsRoomFor self.now.terms.setup.now.chart room.old }
        requires tries { 1 ≤ tries }
        ensures same { (seat.new.id ≡ seat.old.id) × (seat.new.table_id ≡ seat.old.table_id) }
        ensures terms { seat.new.me.0.terms ≡ seat.old.me.0.terms }
        ensures idle { IsIdle seat.new.me.0 seat.new.me.1 }
        ensures counts { HasCounts (region_count self.now.terms.setup.now.chart.cut) seat.new.me.0 }
        ensures in_time { HasSeenInTime self.now.terms seat.new.me.0 }
        ensures shot { IsShotOf self.now.terms tries seat.old.me.0 seat.new.me.0 room.old room.new result }
    {
        if let Some(region) = self.gathers(seat, tries) {
            self.gives_back(seat, region);
            return Shot::Busy { region };
        }
        self.sees_together(seat);
        self.shows(seat, room);
        self.gives_back(seat, self.layout.regions());
        Shot::Taken
    }
}
