ghost use Rattle.std.specs.Prelude.{◌≡◌, ℕ, if◌then◌else◌, IfOk};
ghost use Rattle.step_plan.specs.Changes.{in_force, IsRising};
ghost use Rattle.step_plan.specs.Records.{in_range};

use crate::change::Change;
use crate::join::Join;
use no_memory::NoMemory;
use std::alloc::Global;

/// The changes of a value that is in force in each step of `[from, to)`, and nothing in the others.
pub(crate) fn span<T: Join>(
    alloc: Global,
    from: u32,
    to: u32,
    value: T,
) -> Result<Vec<Change<T>>, NoMemory>
    ensures in_force { IfOk result (λ changes. (t : ℕ) → in_force T.none changes.items t ≡
        if in_range from to t then value else T.none) }
    ensures rising { IfOk result (λ changes. IsRising changes.items) }
{
    let mut changes = Vec::new(alloc);
    if from < to {
        changes.push(Change {
            step: u64::from(from),
            value,
        })?;
        changes.push(Change {
            step: u64::from(to),
            value: T::none(),
        })?;
    }
    Ok(changes)
}
