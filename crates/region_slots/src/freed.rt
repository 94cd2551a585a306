use crate::field::Field;
use crate::observer::Observer;
use crate::plays::Free;
use crate::taken::Taken;
use atomic_table::Seat;
use border_rows::View;
use network_file::Net;
use region_step::Region;
use std::marker::Model;

/// The token that lets an observer be told that a region was freed at the step after the one at which it was taken. The release
/// of the region makes it, and asks that the observer was told of the region as taken. Telling uses it up.
#[derive(Drop)]
pub struct Freed<'f, 'a> {
    field: &'f Field<'a>,
    region: u32,
    step: u64,
}

impl<'f, 'a> Model for Freed<'f, 'a> {
    ghost use Rattle.std.specs.Prelude.{◌<◌, ◌≤◌, slice_index};
    ghost use Rattle.region_cut.specs.Cuttings.{region_count};
    ghost use Rattle.region_slots.specs.Moments.{MomentValue, cut_run};

    ghost Value = { MomentValue };

    ghost view = { λ freed. record { run = cut_run freed.field.now.terms.setup.now; region = freed.region; step = freed.step } };

    ghost invariant = { λ freed. (freed.region < region_count freed.field.now.terms.setup.now.chart.cut)
        × (slice_index freed.field.now.terms.setup.now.start.steps freed.region ≤ freed.step)
        × (freed.step ≤ freed.field.now.terms.setup.now.net.steps) };
}

impl<'f, 'a> Freed<'f, 'a> {
    ghost use Rattle.std.specs.Prelude.{◌≡◌, ◌<◌, ◌≤◌, slice_index};
    ghost use Rattle.region_cut.specs.Cuttings.{region_count};

    /// The number of the region.
    pub fn region(&self) -> u32
        ensures region { result ≡ self.now.region }
        ensures there { result < region_count self.now.run.cut }
    {
        self.region
    }

    /// The step that it has published.
    pub fn step(&self) -> u64
        ensures step { result ≡ self.now.step }
        ensures started { slice_index self.now.run.start.steps self.now.region ≤ result }
        ensures in_time { result ≤ self.now.run.net.steps }
    {
        self.step
    }
}

// How a region is given back. A turn asks for the token of the region that it has taken, or that the observer was told of it.
impl<'a> Field<'a> {
    ghost use Rattle.std.specs.Prelude.{◌≡◌, ◌+◌, ◌<◌, ◌≤◌, ℕ, List, ◌∷◌, true, false, slice_index, if◌then◌else◌};
    ghost use Rattle.region_cut.specs.Cuttings.{region_count};
    ghost use Rattle.region_step.specs.Region.{RegionValue};
    ghost use Rattle.region_step.specs.Standing.{Stands};
    ghost use Rattle.atomic_table.specs.Table.{rest};
    ghost use Rattle.border_rows.specs.Kinds.{freed};
    ghost use Rattle.border_rows.specs.declared.view.Hold.{Hold};
    ghost use Rattle.region_slots.specs.FieldView.{HasSeenInTime, IsSeatOf};
    ghost use Rattle.region_slots.specs.Gathering.{held_to};
    ghost use Rattle.region_slots.specs.Moments.{cut_run};

    // Gives the region held last back, with its state at the step that it has published.
    fn free(&self, seat: &mut Seat<Region, View<'static>>, region: u32)
        requires seat { IsSeatOf self.now seat.old }
        requires there { region < region_count self.now.terms.setup.now.chart.cut }
        requires state { (hold : Hold) × (later : List Hold) × (state : RegionValue) × (others : List (ℕ × RegionValue)) × (seat.old.me.0.holds ≡ hold ∷ later) × (hold.region ≡ region)
            × (hold.known ≡ true) × (seat.old.me.1 ≡ (region, state) ∷ others)
            × Stands self.now.terms.setup.now region (if hold.published then hold.step + 1 else hold.step) state }
        ensures same { (seat.new.id ≡ seat.old.id) × (seat.new.table_id ≡ seat.old.table_id) }
        ensures given { seat.new.me ≡ (freed seat.old.me.0, rest seat.old.me.1) }
        ensures in_time { HasSeenInTime self.now.terms seat.old.me.0 }
    {
        let word = self.places.claim(region);
        self.table.shared.store::<Free>(seat, word as usize, 0);
    }

    /// Gives back a region that nobody is told of.
    pub(crate) fn pass_over(
        &self,
        seat: &mut Seat<Region, View<'static>>,
        region: u32,
        taken: Taken,
    )
        requires seat { IsSeatOf self.now seat.old }
        requires there { region < region_count self.now.terms.setup.now.chart.cut }
        requires taken { taken.region ≡ region }
        requires state { (hold : Hold) × (later : List Hold) × (state : RegionValue) × (others : List (ℕ × RegionValue)) × (seat.old.me.0.holds ≡ hold ∷ later) × (hold.region ≡ region)
            × (hold.known ≡ true) × (seat.old.me.1 ≡ (region, state) ∷ others)
            × Stands self.now.terms.setup.now region (if hold.published then hold.step + 1 else hold.step) state }
        ensures same { (seat.new.id ≡ seat.old.id) × (seat.new.table_id ≡ seat.old.table_id) }
        ensures given { seat.new.me ≡ (freed seat.old.me.0, rest seat.old.me.1) }
        ensures in_time { HasSeenInTime self.now.terms seat.old.me.0 }
    {
        self.free(seat, region);
    }

    /// Gives back a region at the step at which it was taken.
    pub(crate) fn release<W: Observer>(
        &self,
        seat: &mut Seat<Region, View<'static>>,
        region: u32,
        step: u64,
        observer: &W,
    )
        requires seat { IsSeatOf self.now seat.old }
        requires there { region < region_count self.now.terms.setup.now.chart.cut }
        requires told { W.told_held observer.now (cut_run self.now.terms.setup.now) region step }
        requires state { (hold : Hold) × (later : List Hold) × (state : RegionValue) × (others : List (ℕ × RegionValue)) × (seat.old.me.0.holds ≡ hold ∷ later) × (hold.region ≡ region)
            × (hold.known ≡ true) × (hold.step ≡ step) × (hold.published ≡ false) × (seat.old.me.1 ≡ (region, state) ∷ others)
            × Stands self.now.terms.setup.now region step state }
        ensures same { (seat.new.id ≡ seat.old.id) × (seat.new.table_id ≡ seat.old.table_id) }
        ensures given { seat.new.me ≡ (freed seat.old.me.0, rest seat.old.me.1) }
        ensures in_time { HasSeenInTime self.now.terms seat.old.me.0 }
    {
        self.free(seat, region);
    }

    /// Gives back a region at the step after that, which it has published.
    pub(crate) fn release_risen<'f, W: Observer>(
        &'f self,
        seat: &mut Seat<Region, View<'static>>,
        region: u32,
        step: u64,
        observer: &W,
    ) -> Freed<'f, 'a>
        requires seat { IsSeatOf self.now seat.old }
        requires there { region < region_count self.now.terms.setup.now.chart.cut }
        requires started { slice_index self.now.terms.setup.now.start.steps region ≤ step }
        requires in_time { step < self.now.terms.setup.now.net.steps }
        requires told { W.told_held observer.now (cut_run self.now.terms.setup.now) region step }
        requires state { (hold : Hold) × (later : List Hold) × (state : RegionValue) × (others : List (ℕ × RegionValue)) × (seat.old.me.0.holds ≡ hold ∷ later) × (hold.region ≡ region)
            × (hold.known ≡ true) × (hold.step ≡ step) × (hold.published ≡ true) × (seat.old.me.1 ≡ (region, state) ∷ others)
            × Stands self.now.terms.setup.now region (step + 1) state }
        ensures same { (seat.new.id ≡ seat.old.id) × (seat.new.table_id ≡ seat.old.table_id) }
        ensures given { seat.new.me ≡ (freed seat.old.me.0, rest seat.old.me.1) }
        ensures in_time { HasSeenInTime self.now.terms seat.old.me.0 }
        ensures freed { result ≡ record { run = cut_run self.now.terms.setup.now; region = region; step = step + 1 } }
    {
        let net: &Net = self.layout.net();
        let _steps = net.steps;
        self.free(seat, region);
        Freed {
            field: self,
            region,
            step: step + 1,
        }
    }

    /// Gives back the last of the regions that a shot has gathered, of which nobody is told one by one.
    pub(crate) fn release_gathered(&self, seat: &mut Seat<Region, View<'static>>, region: u32)
        requires seat { IsSeatOf self.now seat.old }
        requires there { region < region_count self.now.terms.setup.now.chart.cut }
        requires gathered { seat.old.me.0.holds ≡ held_to seat.old.me.0.seen (region + 1) }
        requires state { (hold : Hold) × (later : List Hold) × (state : RegionValue) × (others : List (ℕ × RegionValue)) × (seat.old.me.0.holds ≡ hold ∷ later) × (hold.region ≡ region)
            × (hold.known ≡ true) × (seat.old.me.1 ≡ (region, state) ∷ others)
            × Stands self.now.terms.setup.now region (if hold.published then hold.step + 1 else hold.step) state }
        ensures same { (seat.new.id ≡ seat.old.id) × (seat.new.table_id ≡ seat.old.table_id) }
        ensures given { seat.new.me ≡ (freed seat.old.me.0, rest seat.old.me.1) }
        ensures in_time { HasSeenInTime self.now.terms seat.old.me.0 }
    {
        self.free(seat, region);
    }
}
