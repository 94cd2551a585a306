ghost use Rattle.std.specs.Prelude.{◌≡◌, ◌≤◌};
ghost use Rattle.region_slots.specs.FieldView.{IsPassOf};
ghost use Rattle.region_slots.specs.Moments.{AreTold, cut_run};
ghost use Rattle.parked_crew.specs.Parking.{IsBrought};

use crate::board::Board;
use crate::sweep::sweep;
use region_slots::{Field, Observer, Pass};
use std::sync::Wait;

/// What a member of the crew does: it sweeps until a sweep finds all regions at the goal or past it, and waits after each
/// that was in vain. The count is read before the sweep, so that a move which the sweep came too early to see is counted
/// past it.
pub(crate) fn work<R: Wait, W: Observer>(
    rt: &R,
    field: &Field,
    pass: &mut Pass,
    goal: u64,
    board: &Board,
    observer: &W,
)
    requires belongs { IsPassOf field.now pass.old }
    requires in_time { goal ≤ field.now.terms.setup.now.net.steps }
    ensures brought { IsBrought field.now goal pass.old pass.new }
    ensures told { AreTold (W.told_held observer.now (cut_run field.now.terms.setup.now)) (W.told_freed observer.now (cut_run field.now.terms.setup.now)) pass.old.knows.log pass.new.knows.log }
{
    for _ in rt.forever() {
        let count = board.count(rt);
        let swept = sweep(rt, field, pass, goal, board, observer);
        if swept.is_done() {
            return;
        }
        if swept.is_in_vain() {
            board.wait(rt, count);
        }
    }
    unreachable!()
}
