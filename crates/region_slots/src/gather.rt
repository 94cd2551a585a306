use crate::field::Field;
use crate::pauses::Pauses;
use crate::plays::Gather;
use atomic_table::Seat;
use border_rows::View;
use region_step::Region;
use snapshot::ShotRoom;

/// The most times that others are let go on between two tries of a region.
const MOST_PAUSES: u32 = 64;

// What a shot does with the regions, in order of number.
impl<'a> Field<'a> {
    ghost use Rattle.std.specs.Prelude.{◌≡◌, ◌≢◌, ◌+◌, ◌*◌, ◌<◌, ◌≤◌, ℕ, [], ◌∷◌, None, Some, IsTrue, false, slice_index};
    ghost use Rattle.std.specs.List.{Contains};
    ghost use Rattle.atomic_table.specs.Table.{rest};
    ghost use Rattle.region_cut.specs.Cuttings.{region_count};
    ghost use Rattle.region_cut.specs.LawfulSteps.{AreLawful};
    ghost use Rattle.region_step.specs.Region.{RegionValue};
    ghost use Rattle.region_step.specs.Standing.{Stands};
    ghost use Rattle.snapshot.specs.Rooms.{IsRoomFor, ShowsRegion, StaysBeside};
    ghost use Rattle.border_rows.specs.Kinds.{gathered, taken};
    ghost use Rattle.border_rows.specs.declared.view.Hold.{Hold};
    ghost use Rattle.border_rows.specs.declared.view.View.{View as ViewValue};
    ghost use Rattle.region_slots.specs.FieldView.{HasCounts, IsSeatOf};
    ghost use Rattle.region_slots.specs.Gathering.{AreCarried, HasGathered, HasStopped, HasTried, held_to};
    ghost use Rattle.region_slots.specs.Shooting.{IsWhole};

    /// Takes all regions, and gives the first that another seat had at each of the tries, if there is one; then those
    /// before it are held.
    pub(crate) fn gathers(&self, seat: &mut Seat<Region, View<'static>>, tries: u32) -> Option<u32>
        requires seat { IsSeatOf self.now seat.old }
        requires idle { HasGathered self.now.terms seat.old.me.0 0 seat.old.me }
        requires tries { 1 ≤ tries }
        ensures same { (seat.new.id ≡ seat.old.id) × (seat.new.table_id ≡ seat.old.table_id) }
        ensures all { result ≡ None → HasGathered self.now.terms seat.old.me.0 (region_count self.now.terms.setup.now.chart.cut) seat.new.me }
        ensures there { (r : ℕ) → result ≡ Some r → r < region_count self.now.terms.setup.now.chart.cut }
        ensures stopped { (r : ℕ) → result ≡ Some r → HasStopped self.now.terms seat.old.me.0 r tries seat.new.me }
        ensures tried { (q : ℕ) → slice_index seat.new.me.0.held_found q ≤ slice_index seat.old.me.0.held_found q + tries }
        ensures never_whole { seat.old.me.0.share ≡ self.now.terms.seats → result ≡ None }
    {
        for region in 0..self.layout.regions() {
            if !self.takes_next(seat, region, tries) {
                return Some(region);
            }
        }
        None
    }

    // Takes the next region, or tells that another seat had it at each of the tries.
    fn takes_next(&self, seat: &mut Seat<Region, View<'static>>, region: u32, tries: u32) -> bool
        requires seat { IsSeatOf self.now seat.old }
        requires there { region < region_count self.now.terms.setup.now.chart.cut }
        requires tries { 1 ≤ tries }
        requires gathered { (old : ViewValue) × HasGathered self.now.terms old region seat.old.me }
        ensures same { (seat.new.id ≡ seat.old.id) × (seat.new.table_id ≡ seat.old.table_id) }
        ensures taken { (old : ViewValue) → HasGathered self.now.terms old region seat.old.me → IsTrue result → HasGathered self.now.terms old (region + 1) seat.new.me }
        ensures stopped { (old : ViewValue) → HasGathered self.now.terms old region seat.old.me → result ≡ false → HasStopped self.now.terms old region tries seat.new.me }
        ensures tried { slice_index seat.new.me.0.held_found region ≤ slice_index seat.old.me.0.held_found region + tries }
        ensures untried { (q : ℕ) → q ≢ region → slice_index seat.new.me.0.held_found q ≡ slice_index seat.old.me.0.held_found q }
        ensures never_whole { seat.old.me.0.share ≡ self.now.terms.seats → IsTrue result }
    {
        let mut pauses = Pauses::none();
        if !self.takes_within(seat, region, tries, &mut pauses) {
            return false;
        }
        self.load_own_step(seat, region);
        true
    }

    // Tries to take a region, so many times at most, and gives whether the seat has it now. Between two tries it lets others
    // go on, the longer the more often it found the region taken: a turn on a large region lasts longer than a few tries
    // do, and whoever has the region may be waiting for a processor.
    fn takes_within(
        &self,
        seat: &mut Seat<Region, View<'static>>,
        region: u32,
        tries: u32,
        pauses: &mut Pauses,
    ) -> bool
        requires seat { IsSeatOf self.now seat.old }
        requires there { region < region_count self.now.terms.setup.now.chart.cut }
        requires tries { 1 ≤ tries }
        requires others { (hold : Hold) → Contains seat.old.me.0.holds hold → hold.region ≢ region }
        requires counts { HasCounts (region_count self.now.terms.setup.now.chart.cut) seat.old.me.0 }
        requires first { pauses.old ≡ 0 }
        ensures same { (seat.new.id ≡ seat.old.id) × (seat.new.table_id ≡ seat.old.table_id) }
        ensures taken { IsTrue result → (failed : ℕ) × (view : ViewValue) × HasTried seat.old.me.0 view region failed × (failed < tries) × (seat.new.me ≡ (taken view region, seat.old.me.1)) }
        ensures held { result ≡ false → HasTried seat.old.me.0 seat.new.me.0 region tries × (seat.new.me.1 ≡ seat.old.me.1) }
        ensures paused { pauses.new ≤ 64 * tries }
        ensures never_whole { seat.old.me.0.share ≡ self.now.terms.seats → IsTrue result }
    {
        let mut failed = 0;
        while failed < tries {
            if self.try_claim(seat, region) {
                return true;
            }
            failed += 1;
            if failed < tries {
                pauses.pause(failed.min(MOST_PAUSES));
            }
        }
        false
    }

    /// Tells that the regions, which the seat holds all, stand together at the steps that it has seen: one moment more of it.
    pub(crate) fn sees_together(&self, seat: &mut Seat<Region, View<'static>>)
        requires seat { IsSeatOf self.now seat.old }
        requires gathered { (old : ViewValue) × HasGathered self.now.terms old (region_count self.now.terms.setup.now.chart.cut) seat.old.me }
        ensures same { (seat.new.id ≡ seat.old.id) × (seat.new.table_id ≡ seat.old.table_id) }
        ensures moment { seat.new.me ≡ (gathered seat.old.me.0, seat.old.me.1) }
        ensures lawful { AreLawful self.now.terms.setup.now.net self.now.terms.setup.now.chart.cut seat.old.me.0.seen }
        ensures started { (r : ℕ) → r < region_count self.now.terms.setup.now.chart.cut → slice_index self.now.terms.setup.now.start.steps r ≤ slice_index seat.old.me.0.seen r }
        ensures whole { seat.old.me.0.share ≡ self.now.terms.seats → IsWhole self.now.terms seat.old.me.0 seat.old.me.0.seen }
    {
        self.table.shared.load::<Gather>(seat, 0);
    }

    /// Copies the regions, which the seat holds all, to a room.
    pub(crate) fn shows(&self, seat: &mut Seat<Region, View<'static>>, room: &mut ShotRoom)
        requires seat { IsSeatOf self.now seat.old }
        requires carried { AreCarried self.now.terms seat.old.me.0.seen (region_count self.now.terms.setup.now.chart.cut) seat.old.me.1 }
        requires room { IsRoomFor self.now.terms.setup.now.chart room.old }
        ensures same { (seat.new.id ≡ seat.old.id) × (seat.new.table_id ≡ seat.old.table_id) × (seat.new.me ≡ seat.old.me) }
        ensures room { IsRoomFor self.now.terms.setup.now.chart room.new }
        ensures shown { (r : ℕ) → r < region_count self.now.terms.setup.now.chart.cut → (state : RegionValue)
            × Stands self.now.terms.setup.now r (slice_index seat.old.me.0.seen r) state
            × ShowsRegion self.now.terms.setup.now.chart room.new state }
    {
        let mut left = self.layout.regions();
        while left > 0 {
            left -= 1;
            self.shows_last(seat, left, room);
            seat.turn();
        }
    }

    // Copies the region in the seat's slot.
    fn shows_last(&self, seat: &mut Seat<Region, View<'static>>, region: u32, room: &mut ShotRoom)
        requires seat { IsSeatOf self.now seat.old }
        requires slot { (step : ℕ) × (state : RegionValue) × (seat.old.me.1 ≡ (region, state) ∷ rest seat.old.me.1)
            × Stands self.now.terms.setup.now region step state }
        requires room { IsRoomFor self.now.terms.setup.now.chart room.old }
        ensures same { (seat.new.id ≡ seat.old.id) × (seat.new.table_id ≡ seat.old.table_id) × (seat.new.me ≡ seat.old.me) }
        ensures room { IsRoomFor self.now.terms.setup.now.chart room.new }
        ensures shows { (state : RegionValue) → seat.old.me.1 ≡ (region, state) ∷ rest seat.old.me.1 → ShowsRegion self.now.terms.setup.now.chart room.new state }
        ensures others { StaysBeside self.now.terms.setup.now.chart room.old room.new region }
    {
        let state = seat.slot_mut(&self.table.shared, region as usize);
        room.fill(self.layout, state);
    }

    /// Gives the first regions back, so many of them, which are all that the seat holds.
    pub(crate) fn gives_back(&self, seat: &mut Seat<Region, View<'static>>, count: u32)
        requires seat { IsSeatOf self.now seat.old }
        requires there { count ≤ region_count self.now.terms.setup.now.chart.cut }
        requires holds { seat.old.me.0.holds ≡ held_to seat.old.me.0.seen count }
        requires carried { AreCarried self.now.terms seat.old.me.0.seen count seat.old.me.1 }
        ensures same { (seat.new.id ≡ seat.old.id) × (seat.new.table_id ≡ seat.old.table_id) }
        ensures given { seat.new.me ≡ (record seat.old.me.0 { holds = [] }, []) }
    {
        let mut left = count;
        while left > 0 {
            left -= 1;
            self.release_gathered(seat, left);
        }
    }
}
