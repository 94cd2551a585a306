use crate::field::{Field, Pass};
use crate::plays::{Bound, ShareOff, Unite};

impl<'a> Field<'a> {
    ghost use Rattle.std.specs.Prelude.{◌≡◌, ◌<◌, ◌≤◌, ℕ, max, slice_index};
    ghost use Rattle.region_cut.specs.Cuttings.{region_count};
    ghost use Rattle.border_rows.specs.Kinds.{kept, shared_off, united};
    ghost use Rattle.region_slots.specs.FieldView.{IsPassOf};

    /// Shares a seat off a pass that has two or more.
    pub fn share(&self, pass: &mut Pass) -> Pass
        requires belongs { IsPassOf self.now pass.old }
        requires shares { 2 ≤ pass.old.knows.share }
        ensures keeps { pass.new.knows ≡ kept pass.old.knows }
        ensures off { result.knows ≡ shared_off pass.old.knows }
        ensures same { (pass.new.id ≡ pass.old.id) × (pass.new.table ≡ pass.old.table) }
        ensures belongs { IsPassOf self.now pass.new }
        ensures also { IsPassOf self.now result }
    {
        let seat = self.table.shared.split_seat::<ShareOff>(&mut pass.seat);
        Pass { seat }
    }

    /// Makes two passes one. Where it has all of the field's seats then, it has seen no region past both its start and its
    /// reach.
    pub fn unite(&self, pass: &mut Pass, other: Pass)
        requires belongs { IsPassOf self.now pass.old }
        requires also { IsPassOf self.now other }
        ensures knows { pass.new.knows ≡ united pass.old.knows other.knows }
        ensures same { (pass.new.id ≡ pass.old.id) × (pass.new.table ≡ pass.old.table) }
        ensures belongs { IsPassOf self.now pass.new }
        ensures whole { pass.new.knows.share ≡ self.now.terms.seats → (r : ℕ) → r < region_count self.now.terms.setup.now.chart.cut →
            slice_index pass.new.knows.seen r ≤ max (slice_index self.now.terms.setup.now.start.steps r) pass.new.knows.reach }
    {
        let Pass { seat } = other;
        self.table.shared.join_seat::<Unite>(&mut pass.seat, seat);
        self.table.shared.load::<Bound>(&mut pass.seat, 0);
    }
}
