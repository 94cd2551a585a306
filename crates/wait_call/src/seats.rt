ghost use Rattle.std.specs.Prelude.{◌≡◌, ◌+◌, ◌≤◌, All, [], length, vec_capacity};
ghost use Rattle.region_cut.specs.Cuttings.{region_count};
ghost use Rattle.region_slots.specs.FieldView.{IsPassOf};
ghost use Rattle.parked_crew.specs.Parking.{HasSeenAll};
ghost use Rattle.wait_call.specs.Seats.{AreFrom, HasCome, IsSeat};

use region_slots::{Field, Pass};

/// Shares so many seats off a pass.
pub(crate) fn share_off(field: &Field, pass: &mut Pass, passes: &mut Vec<Pass>, many: u32)
    requires belongs { IsPassOf field.now pass.old }
    requires shares { pass.old.knows.share ≡ many + 1 }
    requires reach { pass.old.knows.reach ≤ field.now.terms.setup.now.net.steps }
    requires nobody { passes.old.items ≡ [] }
    requires room { many ≤ vec_capacity passes.old }
    ensures belongs { IsPassOf field.now pass.new }
    ensures share { pass.new.knows.share ≡ 1 }
    ensures reach { pass.new.knows.reach ≡ pass.old.knows.reach }
    ensures log { pass.new.knows.log ≡ pass.old.knows.log }
    ensures many { length passes.new.items ≡ many }
    ensures each { All (IsSeat field.now) passes.new.items }
    ensures nothing { All (λ pass. pass.knows.log ≡ []) passes.new.items }
{
    while passes.len() < many as usize {
        passes.push_reserved(field.share(pass));
    }
}

/// Unites a pass with all others, where these have seen all regions at the last step.
pub(crate) fn unite_all(field: &Field, pass: &mut Pass, passes: &mut Vec<Pass>)
    requires belongs { IsPassOf field.now pass.old }
    requires reach { pass.old.knows.reach ≤ field.now.terms.setup.now.net.steps }
    requires come { All (HasCome field.now) passes.old.items }
    requires some { 1 ≤ length passes.old.items }
    ensures belongs { IsPassOf field.now pass.new }
    ensures share { pass.new.knows.share ≡ pass.old.knows.share + length passes.old.items }
    ensures reach { pass.new.knows.reach ≤ field.now.terms.setup.now.net.steps }
    ensures seen { HasSeenAll (region_count field.now.terms.setup.now.chart.cut) field.now.terms.setup.now.net.steps pass.new.knows }
    ensures log { AreFrom pass.old.knows.log passes.old.items pass.new.knows.log }
{
    while let Some(other) = passes.pop() {
        field.unite(pass, other);
    }
}
