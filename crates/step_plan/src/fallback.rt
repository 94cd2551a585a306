ghost use Rattle.std.specs.Prelude.{◌≡◌, map, IfOk};
ghost use Rattle.std.specs.Option.{unwrap_or};

use crate::change::Change;
use no_memory::NoMemory;
use std::alloc::Global;

/// These changes, with `own` in force where they say nothing.
pub(crate) fn with_fallback<T: Copy>(
    alloc: Global,
    changes: &[Change<Option<T>>],
    own: T,
) -> Result<Vec<Change<T>>, NoMemory>
    ensures { IfOk result (λ filled. filled.items ≡ map (λ change. record {
      step = change.step;
      value = unwrap_or change.value own;
    }) changes.now) }
{
    let filled = changes
        .iter()
        .map(|change| Change {
            step: change.step,
            value: change.value.unwrap_or(own),
        })
        .collect(alloc)?;
    Ok(filled)
}
