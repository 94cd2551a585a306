ghost use Rattle.std.specs.Prelude.{◌≡◌, ◌<◌, ◌≤◌};
ghost use Rattle.region_cut.specs.Cuttings.{region_count};
ghost use Rattle.region_slots.specs.FieldView.{IsPassOf};
ghost use Rattle.region_slots.specs.Moments.{AreTold, cut_run};
ghost use Rattle.worker_claim.specs.Turns.{HasWorked, turns_of};

use crate::driven::Driven;
use crate::one_sweep::{sweep, turns};
use region_slots::{Field, Observer, Pass};

/// A sweep, or its first turns where so many are left that it can't be whole.
pub(crate) fn sweep_within<W: Observer>(
    field: &Field,
    pass: &mut Pass,
    goal: u64,
    first: u32,
    left: u64,
    observer: &W,
) -> Driven
    requires belongs { IsPassOf field.now pass.old }
    requires there { first < region_count field.now.terms.setup.now.chart.cut }
    requires in_time { goal ≤ field.now.terms.setup.now.net.steps }
    requires some { 1 ≤ left }
    ensures belongs { IsPassOf field.now pass.new × (pass.new.id ≡ pass.old.id) }
    ensures worked { HasWorked field.now.terms pass.old.knows pass.new.knows goal left result }
    ensures told { AreTold (W.told_held observer.now (cut_run field.now.terms.setup.now)) (W.told_freed observer.now (cut_run field.now.terms.setup.now)) pass.old.knows.log pass.new.knows.log }
    ensures some { 1 ≤ turns_of result }
{
    if left < u64::from(field.regions()) {
        return part(field, pass, goal, first, left as u32, observer);
    }
    sweep(field, pass, goal, first, observer)
}

// So many turns of a sweep, fewer than it has.
fn part<W: Observer>(
    field: &Field,
    pass: &mut Pass,
    goal: u64,
    first: u32,
    many: u32,
    observer: &W,
) -> Driven
    requires belongs { IsPassOf field.now pass.old }
    requires there { first < region_count field.now.terms.setup.now.chart.cut }
    requires in_time { goal ≤ field.now.terms.setup.now.net.steps }
    requires fewer { many < region_count field.now.terms.setup.now.chart.cut }
    ensures belongs { IsPassOf field.now pass.new × (pass.new.id ≡ pass.old.id) }
    ensures worked { HasWorked field.now.terms pass.old.knows pass.new.knows goal many result }
    ensures told { AreTold (W.told_held observer.now (cut_run field.now.terms.setup.now)) (W.told_freed observer.now (cut_run field.now.terms.setup.now)) pass.old.knows.log pass.new.knows.log }
    ensures many { turns_of result ≡ many }
{
    let later = many.min(field.regions() - first);
    let one = turns(field, pass, goal, first, first + later, observer);
    let other = turns(field, pass, goal, 0, many - later, observer);
    one.then(other)
}
