ghost use Rattle.std.specs.Prelude.{◌≡◌, ◌↔◌, ◌+◌, ◌-◌, ◌<◌, ◌≤◌, ◌++◌, IsTrue, false};
ghost use Rattle.std.specs.List.{range_with_len};
ghost use Rattle.region_cut.specs.Cuttings.{region_count};
ghost use Rattle.region_slots.specs.FieldView.{IsPassOf};
ghost use Rattle.worker_claim.specs.Driving.{HasSwept, round_from, steps_left};
ghost use Rattle.region_slots.specs.Moments.{AreTold, cut_run};
ghost use Rattle.worker_claim.specs.Turns.{HasTurned, IsCounted};

use crate::driven::Driven;
use region_slots::{Field, Observer, Pass};

/// One turn on each region, in order of number from `first` on and round.
pub fn sweep<W: Observer>(
    field: &Field,
    pass: &mut Pass,
    goal: u64,
    first: u32,
    observer: &W,
) -> Driven
    requires belongs { IsPassOf field.now pass.old }
    requires there { first < region_count field.now.terms.setup.now.chart.cut }
    requires in_time { goal ≤ field.now.terms.setup.now.net.steps }
    ensures belongs { IsPassOf field.now pass.new × (pass.new.id ≡ pass.old.id) }
    ensures swept { HasSwept (region_count field.now.terms.setup.now.chart.cut) goal 1 pass.old.knows pass.new.knows result }
    ensures counted { IsCounted field.now.terms pass.old.knows pass.new.knows goal result }
    ensures order { pass.new.knows.tried ≡ pass.old.knows.tried ++ round_from (region_count field.now.terms.setup.now.chart.cut) first }
    ensures all { IsTrue result.all ↔ (result.ended ≡ region_count field.now.terms.setup.now.chart.cut) }
    ensures told { AreTold (W.told_held observer.now (cut_run field.now.terms.setup.now)) (W.told_freed observer.now (cut_run field.now.terms.setup.now)) pass.old.knows.log pass.new.knows.log }
    ensures nearer { pass.old.knows.share ≡ field.now.terms.seats → result.all ≡ false →
        steps_left (region_count field.now.terms.setup.now.chart.cut) goal pass.new.knows < steps_left (region_count field.now.terms.setup.now.chart.cut) goal pass.old.knows }
{
    let regions = field.regions();
    let later = turns(field, pass, goal, first, regions, observer);
    let earlier = turns(field, pass, goal, 0, first, observer);
    let ended = later.ended + earlier.ended;
    Driven {
        moved: later.moved + earlier.moved,
        held: later.held + earlier.held,
        behind: later.behind + earlier.behind,
        ended,
        all: ended == u64::from(regions),
    }
}

/// One turn on each region from one number to below another.
pub(crate) fn turns<W: Observer>(
    field: &Field,
    pass: &mut Pass,
    goal: u64,
    from: u32,
    to: u32,
    observer: &W,
) -> Driven
    requires belongs { IsPassOf field.now pass.old }
    requires some { from ≤ to }
    requires there { to ≤ region_count field.now.terms.setup.now.chart.cut }
    requires in_time { goal ≤ field.now.terms.setup.now.net.steps }
    ensures belongs { IsPassOf field.now pass.new × (pass.new.id ≡ pass.old.id) }
    ensures turned { HasTurned field.now.terms pass.old.knows pass.new.knows from to goal result }
    ensures order { pass.new.knows.tried ≡ pass.old.knows.tried ++ range_with_len from (to - from) }
    ensures told { AreTold (W.told_held observer.now (cut_run field.now.terms.setup.now)) (W.told_freed observer.now (cut_run field.now.terms.setup.now)) pass.old.knows.log pass.new.knows.log }
    ensures going { result.all ≡ false }
{
    let mut driven = Driven::none();
    for region in from..to {
        let turn = field.turn(pass, region, goal, observer);
        driven.count(turn);
    }
    driven
}
