ghost use Rattle.std.specs.Prelude.{◌≡◌, ℕ, IfOk};
ghost use Rattle.step_plan.specs.Changes.{in_force, IsRising};
ghost use Rattle.step_plan.specs.Given.{given_by};

use crate::change::Change;
use crate::join::Join;
use crate::merge::merge;
use crate::ranged::Ranged;
use no_memory::NoMemory;
use std::alloc::Global;

/// The changes of what these records give together: those of each half, merged.
pub(crate) fn record_changes<R: Ranged>(
    alloc: Global,
    records: &[R],
) -> Result<Vec<Change<R::Given>>, NoMemory>
    requires fits { (t : ℕ) → R.Given.Fits (given_by R.Given.none R.Given.joined R.speaks R.gives records.now t) }
    ensures in_force { IfOk result (λ changes. (t : ℕ) → in_force R.Given.none changes.items t ≡
        given_by R.Given.none R.Given.joined R.speaks R.gives records.now t) }
    ensures rising { IfOk result (λ changes. IsRising changes.items) }
{
    match records {
        [] => Ok(Vec::new(alloc)),
        [one] => one.changes(alloc),
        _ => {
            let (older, newer) = records.split_at(records.len() / 2);
            let older = record_changes(alloc, older)?;
            let newer = record_changes(alloc, newer)?;
            merge(alloc, &older, &newer)
        }
    }
}
