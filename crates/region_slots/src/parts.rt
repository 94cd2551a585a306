use crate::field::Field;
use crate::freed::Freed;
use crate::observer::Observer;
use atomic_table::Seat;
use border_rows::View;
use network_file::Net;
use region_step::Region;

// What a turn does with a region that it has taken.
impl<'a> Field<'a> {
    ghost use Rattle.std.specs.Prelude.{◌≡◌, ◌+◌, ◌<◌, ◌≤◌, ℕ, ◌∷◌, true, Some, None, length, slice_index, slice_set};
    ghost use Rattle.region_cut.specs.Chart.{list_at};
    ghost use Rattle.region_cut.specs.Neighbours.{are_neighbours};
    ghost use Rattle.border_rows.specs.Kinds.{freed, published};
    ghost use Rattle.border_rows.specs.declared.view.Hold.{Hold};
    ghost use Rattle.region_cut.specs.Cuttings.{region_count};
    ghost use Rattle.region_step.specs.Opened.{IsIn};
    ghost use Rattle.region_step.specs.Region.{RegionValue};
    ghost use Rattle.region_step.specs.Standing.{Stands};
    ghost use Rattle.atomic_table.specs.Table.{rest};
    ghost use Rattle.border_rows.specs.Places.{width_at, widths_of};
    ghost use Rattle.border_rows.specs.Words.{border_cell};
    ghost use Rattle.region_slots.specs.FieldView.{HasSeenInTime, IsSeatOf, IsWorkingAt};
    ghost use Rattle.region_slots.specs.Moments.{cut_run};
    ghost use Rattle.region_slots.specs.Turning.{HasWritten, IsAt, IsCleared, IsTold, field_held, wrote_many, HasFallenShort, HasLooked};

    /// Tells the region in the seat's slot what a cell of its halo holds.
    fn puts(&self, seat: &mut Seat<Region, View<'static>>, region: u32, j: u32, n: u64)
        requires seat { IsSeatOf self.now seat.old }
        requires slot { (state : RegionValue) × (seat.old.me.1 ≡ (region, state) ∷ rest seat.old.me.1) × (j < length state.state.put) }
        ensures same { (seat.new.id ≡ seat.old.id) × (seat.new.table_id ≡ seat.old.table_id) }
        ensures put { (old : RegionValue) × (new : RegionValue) × (seat.old.me.1 ≡ (region, old) ∷ rest seat.old.me.1) × (seat.new.me ≡ (seat.old.me.0, (region, new) ∷ rest seat.old.me.1))
            × (new.state ≡ record old.state { put = slice_set old.state.put j (Some n) })
            × (IsIn self.now.terms.setup.now.net self.now.terms.setup.now.chart old → IsIn self.now.terms.setup.now.net self.now.terms.setup.now.chart new) }
    {
        let state = seat.slot_mut(&self.table.shared, region as usize);
        state.halo_put(j, n);
    }

    /// Tells the region in the seat's slot, whose neighbours are cleared, what each cell of its halo holds.
    pub(crate) fn tells(&self, seat: &mut Seat<Region, View<'static>>, region: u32, step: u64)
        requires seat { IsSeatOf self.now seat.old }
        requires there { region < region_count self.now.terms.setup.now.chart.cut }
        requires at { IsAt seat.old.me.0 region step }
        requires cleared { IsCleared self.now.terms seat.old.me.0 }
        requires slot { (state : RegionValue) × (seat.old.me.1 ≡ (region, state) ∷ rest seat.old.me.1)
            × Stands self.now.terms.setup.now region step state }
        ensures same { (seat.new.id ≡ seat.old.id) × (seat.new.table_id ≡ seat.old.table_id) }
        ensures told { (state : RegionValue) × (seat.new.me ≡ (seat.old.me.0, (region, state) ∷ rest seat.old.me.1))
            × IsTold self.now.terms region step (length (list_at self.now.terms.setup.now.chart.halo region)) state }
    {
        let _regions = self.layout.regions();
        let halo = self.layout.halo(region);
        for j in 0..halo.len() as u32 {
            let other = halo[j as usize];
            let n = self.load_border_word(seat, other.region, step, other.place);
            self.puts(seat, region, j, n);
        }
    }

    /// Takes the region in the seat's slot, whose halo is told, through its step.
    pub(crate) fn advances(&self, seat: &mut Seat<Region, View<'static>>, region: u32, step: u64)
        requires seat { IsSeatOf self.now seat.old }
        requires there { region < region_count self.now.terms.setup.now.chart.cut }
        requires in_time { step < self.now.terms.setup.now.net.steps }
        requires slot { (state : RegionValue) × (seat.old.me.1 ≡ (region, state) ∷ rest seat.old.me.1)
            × IsTold self.now.terms region step (length (list_at self.now.terms.setup.now.chart.halo region)) state }
        requires started { slice_index self.now.terms.setup.now.start.steps region ≤ step }
        ensures same { (seat.new.id ≡ seat.old.id) × (seat.new.table_id ≡ seat.old.table_id) }
        ensures advanced { (state : RegionValue) × (seat.new.me ≡ (seat.old.me.0, (region, state) ∷ rest seat.old.me.1))
            × Stands self.now.terms.setup.now region (step + 1) state }
    {
        let state = seat.slot_mut(&self.table.shared, region as usize);
        state.advance(self.layout);
    }

    /// What a border cell of the region in the seat's slot holds.
    fn holds_now(
        &self,
        seat: &mut Seat<Region, View<'static>>,
        region: u32,
        step: u64,
        j: u32,
    ) -> u64
        requires seat { IsSeatOf self.now seat.old }
        requires there { region < region_count self.now.terms.setup.now.chart.cut }
        requires inside { j < length (list_at self.now.terms.setup.now.chart.border region) }
        requires slot { (state : RegionValue) × (seat.old.me.1 ≡ (region, state) ∷ rest seat.old.me.1)
            × Stands self.now.terms.setup.now region step state }
        requires started { slice_index self.now.terms.setup.now.start.steps region ≤ step }
        ensures same { (seat.new.id ≡ seat.old.id) × (seat.new.table_id ≡ seat.old.table_id) × (seat.new.me ≡ seat.old.me) }
        ensures held { result ≡ field_held self.now.terms step (border_cell self.now.terms.setup.now.chart region j) }
    {
        let state = seat.slot_mut(&self.table.shared, region as usize);
        state.border_now(self.layout, j)
    }

    /// Writes the row of the step to come, at which the region in the seat's slot stands already.
    pub(crate) fn fills(&self, seat: &mut Seat<Region, View<'static>>, region: u32, step: u64)
        requires seat { IsSeatOf self.now seat.old }
        requires there { region < region_count self.now.terms.setup.now.chart.cut }
        requires at { (t : ℕ) × IsAt seat.old.me.0 region t × (t + 1 ≡ step) }
        requires cleared { IsCleared self.now.terms seat.old.me.0 }
        requires none { HasWritten seat.old.me.0 0 }
        requires slot { (state : RegionValue) × (seat.old.me.1 ≡ (region, state) ∷ rest seat.old.me.1)
            × Stands self.now.terms.setup.now region step state }
        requires started { slice_index self.now.terms.setup.now.start.steps region ≤ step }
        ensures same { (seat.new.id ≡ seat.old.id) × (seat.new.table_id ≡ seat.old.table_id) }
        ensures written { seat.new.me ≡ (wrote_many seat.old.me.0 (width_at (widths_of self.now.terms.setup.now.chart) region), seat.old.me.1) }
    {
        let _regions = self.layout.regions();
        let border = self.layout.border(region);
        for j in 0..border.len() as u32 {
            let n = self.holds_now(seat, region, step, j);
            self.store_border_word(seat, region, step, j, n);
        }
    }

    /// Looks at the neighbours of the region held last, and gives the first that stands a step lower, with its step.
    pub(crate) fn clears(
        &self,
        seat: &mut Seat<Region, View<'static>>,
        region: u32,
        step: u64,
    ) -> Option<(u32, u64)>
        requires seat { IsSeatOf self.now seat.old }
        requires there { region < region_count self.now.terms.setup.now.chart.cut }
        requires at { IsAt seat.old.me.0 region step }
        requires long { length seat.old.me.0.seen ≡ region_count self.now.terms.setup.now.chart.cut }
        ensures same { (seat.new.id ≡ seat.old.id) × (seat.new.table_id ≡ seat.old.table_id) × (seat.new.me.1 ≡ seat.old.me.1) }
        ensures cleared { result ≡ None → ((hold : Hold) → IsWorkingAt seat.old.me.0 hold → HasLooked seat.old.me.0 seat.new.me.0 hold) × IsCleared self.now.terms seat.new.me.0
            × ((q : ℕ) → are_neighbours self.now.terms.setup.now.net.connectors self.now.terms.setup.now.chart.cut region q ≡ true → step ≤ slice_index seat.new.me.0.seen q) }
        ensures short { (q s : ℕ) → result ≡ Some (q, s) → HasFallenShort seat.old.me.0 seat.new.me.0 region q s × (s + 1 ≡ step) × IsAt seat.new.me.0 region step
            × (are_neighbours self.now.terms.setup.now.net.connectors self.now.terms.setup.now.chart.cut region q ≡ true) }
    {
        let _regions = self.layout.regions();
        let neighbours = self.layout.neighbours(region);
        for k in 0..neighbours.len() {
            let q = neighbours[k];
            let s = self.load_neighbour_step(seat, q);
            if s < step {
                return Some((q, s));
            }
        }
        None
    }

    /// Takes the region held last, whose neighbours are cleared and of which the observer was told, through its step,
    /// publishes it and gives the region back.
    pub(crate) fn rises<'f, W: Observer>(
        &'f self,
        seat: &mut Seat<Region, View<'static>>,
        region: u32,
        step: u64,
        observer: &W,
    ) -> Freed<'f, 'a>
        requires seat { IsSeatOf self.now seat.old }
        requires there { region < region_count self.now.terms.setup.now.chart.cut }
        requires in_time { step < self.now.terms.setup.now.net.steps }
        requires at { IsAt seat.old.me.0 region step }
        requires cleared { IsCleared self.now.terms seat.old.me.0 }
        requires none { HasWritten seat.old.me.0 0 }
        requires slot { (state : RegionValue) × (seat.old.me.1 ≡ (region, state) ∷ rest seat.old.me.1)
            × Stands self.now.terms.setup.now region step state }
        requires started { slice_index self.now.terms.setup.now.start.steps region ≤ step }
        requires told { W.told_held observer.now (cut_run self.now.terms.setup.now) region step }
        ensures same { (seat.new.id ≡ seat.old.id) × (seat.new.table_id ≡ seat.old.table_id) }
        ensures risen { seat.new.me ≡ (freed (published (wrote_many seat.old.me.0 (width_at (widths_of self.now.terms.setup.now.chart) region)) region (step + 1)), rest seat.old.me.1) }
        ensures later { slice_index seat.old.me.0.seen region ≤ step + 1 }
        ensures in_time { HasSeenInTime self.now.terms seat.new.me.0 }
        ensures freed { result ≡ record { run = cut_run self.now.terms.setup.now; region = region; step = step + 1 } }
    {
        let net: &Net = self.layout.net();
        let _steps = net.steps;
        self.tells(seat, region, step);
        self.advances(seat, region, step);
        self.fills(seat, region, step + 1);
        self.publish_step(seat, region, step + 1);
        self.release_risen(seat, region, step, observer)
    }
}
