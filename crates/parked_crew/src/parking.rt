ghost use Rattle.std.specs.Prelude.{◌≡◌, ◌≤◌};
ghost use Rattle.region_slots.specs.FieldView.{IsPassOf};
ghost use Rattle.region_slots.specs.Moments.{AreTold, cut_run};
ghost use Rattle.parked_crew.specs.Parking.{AreBrought, ArePassesOf, IsBrought};
ghost use Rattle.parked_crew.specs.Telling.{ArePassesTold};

use crate::board::Board;
use crate::member::work;
use region_slots::{Field, Observer, Pass};
use std::sync::Wait;
use std::thread::{Threads, for_each_mut};

/// Brings all regions to the goal, or leaves them past it, by a member of the crew for each pass: all at once where the
/// threads can be made, and one after the other where they can't. A member that would sweep in vain waits until another
/// moves a region; turns by other passes don't wake it. So the call may wait; that it returns isn't proved.
pub fn parked<R: Threads + Wait + Sync, W: Observer>(
    rt: &R,
    field: &Field,
    passes: &mut [Pass],
    goal: u64,
    board: &Board,
    observer: &W,
)
    requires passes { ArePassesOf field.now passes.old }
    requires in_time { goal ≤ field.now.terms.setup.now.net.steps }
    ensures brought { AreBrought field.now goal passes.old passes.new }
    ensures told { ArePassesTold (W.told_held observer.now (cut_run field.now.terms.setup.now)) (W.told_freed observer.now (cut_run field.now.terms.setup.now)) passes.old passes.new }
{
    let threads = passes.len().max(1);
    let member = move |_k: usize, pass: &mut Pass|
        requires { IsPassOf field.now pass.old × (goal ≤ field.now.terms.setup.now.net.steps) }
        ensures { IsBrought field.entry.now goal pass.old pass.new × AreTold (W.told_held observer.entry.now (cut_run field.entry.now.terms.setup.now)) (W.told_freed observer.entry.now (cut_run field.entry.now.terms.setup.now)) pass.old.knows.log pass.new.knows.log }
    { work(rt, field, pass, goal, board, observer) };
    for_each_mut(rt, passes, threads, &member);
}
