ghost use Rattle.std.specs.Prelude.{◌≡◌, ◌≤◌};
ghost use Rattle.region_cut.specs.Cuttings.{region_count};
ghost use Rattle.region_slots.specs.FieldView.{IsPassOf};
ghost use Rattle.region_slots.specs.Moments.{AreTold, cut_run};
ghost use Rattle.parked_crew.specs.Sweeping.{HasSwept};

use crate::board::Board;
use crate::swept::Swept;
use region_slots::{Field, Observer, Pass, Turn};
use std::sync::Wait;

/// One turn on each region, in order of number. Each move is counted on the board once it is published.
pub(crate) fn sweep<R: Wait, W: Observer>(
    rt: &R,
    field: &Field,
    pass: &mut Pass,
    goal: u64,
    board: &Board,
    observer: &W,
) -> Swept
    requires belongs { IsPassOf field.now pass.old }
    requires in_time { goal ≤ field.now.terms.setup.now.net.steps }
    ensures belongs { IsPassOf field.now pass.new × (pass.new.id ≡ pass.old.id) }
    ensures swept { HasSwept (region_count field.now.terms.setup.now.chart.cut) goal pass.old.knows pass.new.knows result }
    ensures told { AreTold (W.told_held observer.now (cut_run field.now.terms.setup.now)) (W.told_freed observer.now (cut_run field.now.terms.setup.now)) pass.old.knows.log pass.new.knows.log }
{
    let mut swept = Swept::none();
    for region in 0..field.regions() {
        let turn = field.turn(pass, region, goal, observer);
        if matches!(turn, Turn::Moved { .. }) {
            board.raise(rt);
        }
        swept.count(turn);
    }
    swept
}
