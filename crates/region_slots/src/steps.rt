use crate::field::Field;
use crate::plays::{Claim, Compare, Learn, Publish, ReadBorder, Write};
use atomic_table::Seat;
use border_rows::View;
use region_step::Region;

// The atomic steps of a turn, each by itself, but for the last one, which gives the region back.
impl<'a> Field<'a> {
    ghost use Rattle.std.specs.Prelude.{◌≡◌, ◌≢◌, ◌+◌, ◌%◌, ◌<◌, ◌≤◌, ◌↔◌, ℕ, List, [], ◌∷◌, IsTrue, true, false, length, slice_index, if◌then◌else◌};
    ghost use Rattle.std.specs.List.{Contains};
    ghost use Rattle.region_cut.specs.Cuttings.{region_count};
    ghost use Rattle.region_cut.specs.Neighbours.{are_neighbours};
    ghost use Rattle.region_step.specs.Grid.{grid_held};
    ghost use Rattle.region_step.specs.Region.{RegionValue};
    ghost use Rattle.region_step.specs.Standing.{Stands};
    ghost use Rattle.atomic_table.specs.Table.{rest};
    ghost use Rattle.border_rows.specs.Kinds.{cleared, found_at, found_short, found_taken, freed, fresh, published, taken, wrote};
    ghost use Rattle.border_rows.specs.Places.{width_at, widths_of};
    ghost use Rattle.border_rows.specs.Words.{border_cell};
    ghost use Rattle.border_rows.specs.declared.view.Hold.{Hold};
    ghost use Rattle.region_slots.specs.FieldView.{HasSeenInTime, IsSeatOf, IsWorkingAt};

    /// Tries to take a region, and gives whether the seat has it now.
    pub(crate) fn try_claim(&self, seat: &mut Seat<Region, View<'static>>, region: u32) -> bool
        requires seat { IsSeatOf self.now seat.old }
        requires there { region < region_count self.now.terms.setup.now.chart.cut }
        requires others { (hold : Hold) → Contains seat.old.me.0.holds hold → hold.region ≢ region }
        ensures same { (seat.new.id ≡ seat.old.id) × (seat.new.table_id ≡ seat.old.table_id) }
        ensures taken { IsTrue result → seat.new.me ≡ (taken seat.old.me.0 region, seat.old.me.1) }
        ensures held { result ≡ false → seat.new.me ≡ (found_taken seat.old.me.0 region, seat.old.me.1) }
        ensures long { length seat.old.me.0.seen ≡ region_count self.now.terms.setup.now.chart.cut }
        ensures in_time { HasSeenInTime self.now.terms seat.old.me.0 }
        ensures never_whole { seat.old.me.0.share ≡ self.now.terms.seats → IsTrue result }
    {
        let word = self.places.claim(region);
        let found = self
            .table
            .shared
            .compare_exchange::<Claim>(seat, word as usize, 0, 1);
        found == 0
    }

    /// The step of the region just taken, whose state is the seat's now.
    pub(crate) fn load_own_step(&self, seat: &mut Seat<Region, View<'static>>, region: u32) -> u64
        requires seat { IsSeatOf self.now seat.old }
        requires there { region < region_count self.now.terms.setup.now.chart.cut }
        requires fresh { (later : List Hold) × (seat.old.me.0.holds ≡ fresh region ∷ later) }
        ensures same { (seat.new.id ≡ seat.old.id) × (seat.new.table_id ≡ seat.old.table_id) }
        ensures state { (state : RegionValue) × (seat.new.me ≡ (found_at seat.old.me.0 region result, (region, state) ∷ seat.old.me.1))
            × Stands self.now.terms.setup.now region result state }
        ensures later { slice_index seat.old.me.0.seen region ≤ result }
        ensures started { slice_index self.now.terms.setup.now.start.steps region ≤ result }
        ensures in_time { result ≤ self.now.terms.setup.now.net.steps }
    {
        let word = self.places.step(region);
        self.table.shared.load::<Learn>(seat, word as usize)
    }

    /// The step of a neighbour of the region held last.
    pub(crate) fn load_neighbour_step(
        &self,
        seat: &mut Seat<Region, View<'static>>,
        neighbour: u32,
    ) -> u64
        requires seat { IsSeatOf self.now seat.old }
        requires working { (hold : Hold) × IsWorkingAt seat.old.me.0 hold
            × (are_neighbours self.now.terms.setup.now.net.connectors self.now.terms.setup.now.chart.cut hold.region neighbour ≡ true) }
        ensures same { (seat.new.id ≡ seat.old.id) × (seat.new.table_id ≡ seat.old.table_id) }
        ensures near { (hold : Hold) → IsWorkingAt seat.old.me.0 hold → hold.step ≤ result → seat.new.me ≡ (cleared seat.old.me.0 neighbour result, seat.old.me.1) }
        ensures short { (hold : Hold) → IsWorkingAt seat.old.me.0 hold → result < hold.step →
            (seat.new.me ≡ (found_short seat.old.me.0 hold.region neighbour result, seat.old.me.1)) × (result + 1 ≡ hold.step) }
        ensures later { slice_index seat.old.me.0.seen neighbour ≤ result }
    {
        let word = self.places.step(neighbour);
        self.table.shared.load::<Compare>(seat, word as usize)
    }

    /// What the border cell of a cleared neighbour holds at the step of the region held last.
    pub(crate) fn load_border_word(
        &self,
        seat: &mut Seat<Region, View<'static>>,
        neighbour: u32,
        step: u64,
        j: u32,
    ) -> u64
        requires seat { IsSeatOf self.now seat.old }
        requires inside { j < width_at (widths_of self.now.terms.setup.now.chart) neighbour }
        requires working { (hold : Hold) × IsWorkingAt seat.old.me.0 hold × (hold.step ≡ step) × Contains hold.cleared neighbour
            × (are_neighbours self.now.terms.setup.now.net.connectors self.now.terms.setup.now.chart.cut hold.region neighbour ≡ true) }
        ensures same { (seat.new.id ≡ seat.old.id) × (seat.new.table_id ≡ seat.old.table_id) × (seat.new.me ≡ seat.old.me) }
        ensures held { result ≡ grid_held self.now.terms.setup.now.net self.now.terms.setup.now.chart.cut self.now.terms.setup.now.start step (border_cell self.now.terms.setup.now.chart neighbour j) }
    {
        let word = self.places.row(neighbour, (step % 2) as u32, j);
        self.table.shared.load::<ReadBorder>(seat, word as usize)
    }

    /// Writes what border cell `j` of the region held last holds at the step to come, which is the next word of its row.
    pub(crate) fn store_border_word(
        &self,
        seat: &mut Seat<Region, View<'static>>,
        region: u32,
        step: u64,
        j: u32,
        n: u64,
    )
        requires seat { IsSeatOf self.now seat.old }
        requires working { (hold : Hold) × IsWorkingAt seat.old.me.0 hold × (hold.region ≡ region) × (hold.step + 1 ≡ step) × (hold.written ≡ j)
            × ((q : ℕ) → are_neighbours self.now.terms.setup.now.net.connectors self.now.terms.setup.now.chart.cut hold.region q ≡ true → Contains hold.cleared q) }
        requires inside { j < width_at (widths_of self.now.terms.setup.now.chart) region }
        requires held { n ≡ grid_held self.now.terms.setup.now.net self.now.terms.setup.now.chart.cut self.now.terms.setup.now.start step (border_cell self.now.terms.setup.now.chart region j) }
        ensures same { (seat.new.id ≡ seat.old.id) × (seat.new.table_id ≡ seat.old.table_id) }
        ensures one_more { seat.new.me ≡ (wrote seat.old.me.0, seat.old.me.1) }
    {
        let word = self.places.row(region, (step % 2) as u32, j);
        self.table.shared.store::<Write>(seat, word as usize, n);
    }

    /// Publishes the step to come of the region held last, whose row is whole.
    pub(crate) fn publish_step(
        &self,
        seat: &mut Seat<Region, View<'static>>,
        region: u32,
        step: u64,
    )
        requires seat { IsSeatOf self.now seat.old }
        requires working { (hold : Hold) × IsWorkingAt seat.old.me.0 hold × (hold.region ≡ region) × (hold.step + 1 ≡ step)
            × (hold.written ≡ width_at (widths_of self.now.terms.setup.now.chart) region)
            × ((q : ℕ) → are_neighbours self.now.terms.setup.now.net.connectors self.now.terms.setup.now.chart.cut hold.region q ≡ true → Contains hold.cleared q) }
        requires there { region < region_count self.now.terms.setup.now.chart.cut }
        requires in_time { step ≤ self.now.terms.setup.now.net.steps }
        ensures same { (seat.new.id ≡ seat.old.id) × (seat.new.table_id ≡ seat.old.table_id) }
        ensures risen { seat.new.me ≡ (published seat.old.me.0 region step, seat.old.me.1) }
        ensures later { slice_index seat.old.me.0.seen region ≤ step }
    {
        let word = self.places.step(region);
        self.table
            .shared
            .store::<Publish>(seat, word as usize, step);
    }
}
