ghost use Rattle.std.specs.Prelude.{◌≡◌, ◌<◌, ◌≤◌};
ghost use Rattle.region_cut.specs.Cuttings.{region_count};
ghost use Rattle.region_slots.specs.FieldView.{IsPassOf};
ghost use Rattle.region_slots.specs.Moments.{AreTold, cut_run};
ghost use Rattle.sweeping_crew.specs.Driving.{HasDriven};

use region_slots::{Field, Observer, Pass, Pauses};
use worker_claim::{Driven, pause_where, sweep};

/// Makes so many sweeps with a pass, or fewer where all turns of one find their region at the goal or past it. A sweep is
/// one turn on each region, in order of number from `first` on and round.
pub fn drive<W: Observer>(
    field: &Field,
    pass: &mut Pass,
    goal: u64,
    sweeps: u32,
    first: u32,
    observer: &W,
) -> Driven
    requires belongs { IsPassOf field.now pass.old }
    requires there { first < region_count field.now.terms.setup.now.chart.cut }
    requires in_time { goal ≤ field.now.terms.setup.now.net.steps }
    ensures belongs { IsPassOf field.now pass.new × (pass.new.id ≡ pass.old.id) }
    ensures driven { HasDriven (region_count field.now.terms.setup.now.chart.cut) goal sweeps first pass.old.knows pass.new.knows result }
    ensures told { AreTold (W.told_held observer.now (cut_run field.now.terms.setup.now)) (W.told_freed observer.now (cut_run field.now.terms.setup.now)) pass.old.knows.log pass.new.knows.log }
{
    let mut pauses = Pauses::none();
    drive_pausing(field, pass, goal, sweeps, first, observer, &mut pauses)
}

// The same. It lets others go on at most once for each sweep.
fn drive_pausing<W: Observer>(
    field: &Field,
    pass: &mut Pass,
    goal: u64,
    sweeps: u32,
    first: u32,
    observer: &W,
    pauses: &mut Pauses,
) -> Driven
    requires belongs { IsPassOf field.now pass.old }
    requires there { first < region_count field.now.terms.setup.now.chart.cut }
    requires in_time { goal ≤ field.now.terms.setup.now.net.steps }
    requires none { pauses.old ≡ 0 }
    ensures belongs { IsPassOf field.now pass.new × (pass.new.id ≡ pass.old.id) }
    ensures driven { HasDriven (region_count field.now.terms.setup.now.chart.cut) goal sweeps first pass.old.knows pass.new.knows result }
    ensures told { AreTold (W.told_held observer.now (cut_run field.now.terms.setup.now)) (W.told_freed observer.now (cut_run field.now.terms.setup.now)) pass.old.knows.log pass.new.knows.log }
    ensures paused { pauses.new ≤ sweeps }
{
    let _regions = field.regions();
    let mut driven = Driven::none();
    let mut made = 0;
    while made < sweeps && !driven.all {
        let swept = sweep(field, pass, goal, first, observer);
        driven = driven.then(swept);
        made += 1;
        pause_where(pauses, swept.moved == 0 && !swept.all);
    }
    driven
}
