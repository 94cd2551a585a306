ghost use Rattle.std.specs.Prelude.{◌≡◌, ◌≤◌};
ghost use Rattle.region_cut.specs.Cuttings.{region_count};
ghost use Rattle.region_slots.specs.FieldView.{IsPassOf};
ghost use Rattle.region_slots.specs.Turning.{IsWithin};
ghost use Rattle.worker_claim.specs.Driving.{AllReach};
ghost use Rattle.region_slots.specs.Moments.{AreTold, cut_run};

use crate::one_sweep::sweep;
use region_slots::{Field, Observer, Pass};

/// Brings each region to the goal, or leaves it past it, with the pass that has all of the field's seats. Nobody else can
/// hold a region then, and the lowest region below the goal has no lower neighbour, so that each sweep moves one.
pub fn finish<W: Observer>(field: &Field, pass: &mut Pass, goal: u64, observer: &W)
    requires belongs { IsPassOf field.now pass.old }
    requires whole { pass.old.knows.share ≡ field.now.terms.seats }
    requires in_time { goal ≤ field.now.terms.setup.now.net.steps }
    ensures belongs { IsPassOf field.now pass.new × (pass.new.id ≡ pass.old.id) }
    ensures keeps { IsWithin pass.old.knows pass.new.knows goal }
    ensures told { AreTold (W.told_held observer.now (cut_run field.now.terms.setup.now)) (W.told_freed observer.now (cut_run field.now.terms.setup.now)) pass.old.knows.log pass.new.knows.log }
    ensures done { AllReach (region_count field.now.terms.setup.now.chart.cut) goal pass.new.knows }
{
    let mut all = false;
    while !all {
        all = sweep(field, pass, goal, 0, observer).all;
    }
}
