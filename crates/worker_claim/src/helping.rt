ghost use Rattle.std.specs.Prelude.{◌≡◌, ◌≤◌};
ghost use Rattle.worker_claim.specs.Helping.{AreHelped, AreHelpersOf, IsHelped, IsHelperOf};
ghost use Rattle.region_slots.specs.Moments.{AreTold, cut_run};
ghost use Rattle.worker_claim.specs.Telling.{AreHelpersTold};

use crate::helper::Helper;
use region_slots::{Field, Observer};
use std::thread::{Threads, for_each_mut};

/// Has each helper make as many turns as so many sweeps have, or fewer where all regions are at the goal: all helpers at
/// once where the threads can be made, and one after the other where they can't. A push may ask for memory, and where
/// there is none the number is kept, and pushed again with the helper's next sweep.
pub fn crew_hints<R: Threads + Sync, W: Observer>(
    rt: &R,
    field: &Field,
    helpers: &mut [Helper],
    goal: u64,
    sweeps: u32,
    observer: &W,
)
    requires helpers { AreHelpersOf field.now helpers.old }
    requires in_time { goal ≤ field.now.terms.setup.now.net.steps }
    ensures helped { AreHelped field.now goal sweeps helpers.old helpers.new }
    ensures told { AreHelpersTold (W.told_held observer.now (cut_run field.now.terms.setup.now)) (W.told_freed observer.now (cut_run field.now.terms.setup.now)) helpers.old helpers.new }
{
    let threads = helpers.len().max(1);
    let work = move |_k: usize, helper: &mut Helper|
        requires { IsHelperOf field.now helper.old × (goal ≤ field.now.terms.setup.now.net.steps) }
        ensures { IsHelped field.entry.now goal sweeps helper.old helper.new × AreTold (W.told_held observer.entry.now (cut_run field.entry.now.terms.setup.now)) (W.told_freed observer.entry.now (cut_run field.entry.now.terms.setup.now)) helper.old.member.pass.knows.log helper.new.member.pass.knows.log }
    { helper.help(field, goal, sweeps, observer) };
    for_each_mut(rt, helpers, threads, &work);
}
