ghost use Rattle.std.specs.Prelude.{◌≡◌, ℕ, ◌<◌, ◌≤◌, length, IfOk};
ghost use Rattle.step_plan.specs.Changes.{in_force, IsRising};
ghost use Rattle.step_plan.specs.Merging.{IsLeft, IsNext, IsTaken};

use crate::change::Change;
use crate::join::Join;
use no_memory::NoMemory;
use std::alloc::Global;

/// The step of the next change, of `older` at `i` or of `newer` at `j`.
fn next_step<T: Copy>(older: &[Change<T>], i: usize, newer: &[Change<T>], j: usize) -> u64
    requires some { length older.now ≤ i → j < length newer.now }
    ensures { IsNext result older.now i newer.now j }
{
    if i < older.len() && (j >= newer.len() || older[i].step <= newer[j].step) {
        older[i].step
    } else {
        newer[j].step
    }
}

/// Passes the change at `at` where it is at this step: the place after it, and its value. Otherwise place
/// and value stay.
fn advance<T: Copy>(changes: &[Change<T>], at: usize, value: T, step: u64) -> (usize, T)
    requires rising { IsRising changes.now }
    requires within { at ≤ length changes.now }
    requires left { IsLeft changes.now at step }
    ensures { IsTaken changes.now at value step result.0 result.1 }
{
    if at < changes.len() && changes[at].step == step {
        (at + 1, changes[at].value)
    } else {
        (at, value)
    }
}

/// The changes of what two lists give together.
pub(crate) fn merge<T: Join>(
    alloc: Global,
    older: &[Change<T>],
    newer: &[Change<T>],
) -> Result<Vec<Change<T>>, NoMemory>
    requires older_rising { IsRising older.now }
    requires newer_rising { IsRising newer.now }
    requires fits { (t : ℕ) → T.Fits (T.joined (in_force T.none older.now t) (in_force T.none newer.now t)) }
    ensures in_force { IfOk result (λ merged. (t : ℕ) → in_force T.none merged.items t ≡
        T.joined (in_force T.none older.now t) (in_force T.none newer.now t)) }
    ensures rising { IfOk result (λ merged. IsRising merged.items) }
{
    let mut merged = Vec::new(alloc);
    let (mut i, mut j) = (0, 0);
    let (mut old, mut new) = (T::none(), T::none());
    while i < older.len() || j < newer.len() {
        let step = next_step(older, i, newer, j);
        (i, old) = advance(older, i, old, step);
        (j, new) = advance(newer, j, new, step);
        merged.push(Change {
            step,
            value: old.join(new),
        })?;
    }
    Ok(merged)
}
