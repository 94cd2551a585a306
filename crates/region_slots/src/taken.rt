use crate::field::Field;
use atomic_table::Seat;
use border_rows::View;
use region_step::Region;
use std::marker::Model;

/// The token that lets an observer be told that a region was taken, standing at a step. Whoever takes a region looks at its
/// step once, and that look makes the token. Telling uses it up.
#[derive(Drop)]
pub struct Taken<'f, 'a> {
    field: &'f Field<'a>,
    region: u32,
    step: u64,
}

impl<'f, 'a> Model for Taken<'f, 'a> {
    ghost use Rattle.std.specs.Prelude.{◌<◌, ◌≤◌, slice_index};
    ghost use Rattle.region_cut.specs.Cuttings.{region_count};
    ghost use Rattle.region_slots.specs.Moments.{MomentValue, cut_run};

    ghost Value = { MomentValue };

    ghost view = { λ taken. record { run = cut_run taken.field.now.terms.setup.now; region = taken.region; step = taken.step } };

    ghost invariant = { λ taken. (taken.region < region_count taken.field.now.terms.setup.now.chart.cut)
        × (slice_index taken.field.now.terms.setup.now.start.steps taken.region ≤ taken.step)
        × (taken.step ≤ taken.field.now.terms.setup.now.net.steps) };
}

impl<'f, 'a> Taken<'f, 'a> {
    ghost use Rattle.std.specs.Prelude.{◌≡◌, ◌<◌, ◌≤◌, ℕ, List, ◌∷◌, slice_index};
    ghost use Rattle.region_cut.specs.Cuttings.{region_count};
    ghost use Rattle.region_step.specs.Region.{RegionValue};
    ghost use Rattle.region_step.specs.Standing.{Stands};
    ghost use Rattle.border_rows.specs.Kinds.{found_at, fresh};
    ghost use Rattle.border_rows.specs.declared.view.Hold.{Hold};
    ghost use Rattle.region_slots.specs.FieldView.{IsSeatOf};
    ghost use Rattle.region_slots.specs.Moments.{cut_run};

    /// Looks at the step of the region just taken, whose state is the seat's then.
    pub(crate) fn learn(
        field: &'f Field<'a>,
        seat: &mut Seat<Region, View<'static>>,
        region: u32,
    ) -> Taken<'f, 'a>
        requires seat { IsSeatOf field.now seat.old }
        requires there { region < region_count field.now.terms.setup.now.chart.cut }
        requires fresh { (later : List Hold) × (seat.old.me.0.holds ≡ fresh region ∷ later) }
        ensures same { (seat.new.id ≡ seat.old.id) × (seat.new.table_id ≡ seat.old.table_id) }
        ensures moment { (result.run ≡ cut_run field.now.terms.setup.now) × (result.region ≡ region) }
        ensures state { (state : RegionValue) × (seat.new.me ≡ (found_at seat.old.me.0 region result.step, (region, state) ∷ seat.old.me.1))
            × Stands field.now.terms.setup.now region result.step state }
        ensures later { slice_index seat.old.me.0.seen region ≤ result.step }
        ensures started { slice_index field.now.terms.setup.now.start.steps region ≤ result.step }
        ensures in_time { result.step ≤ field.now.terms.setup.now.net.steps }
    {
        let step = field.load_own_step(seat, region);
        Taken {
            field,
            region,
            step,
        }
    }

    /// The number of the region.
    pub fn region(&self) -> u32
        ensures region { result ≡ self.now.region }
        ensures there { result < region_count self.now.run.cut }
    {
        self.region
    }

    /// The step at which it stood.
    pub fn step(&self) -> u64
        ensures step { result ≡ self.now.step }
        ensures started { slice_index self.now.run.start.steps self.now.region ≤ result }
        ensures in_time { result ≤ self.now.run.net.steps }
    {
        self.step
    }
}
