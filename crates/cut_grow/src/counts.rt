ghost use Rattle.std.specs.Prelude.{◌≡◌, ◌<◌, ◌≤◌, ◌^◌, All, IfOk, length};
ghost use Rattle.cut_grow.specs.Counts.{AreCountsBelow, AreCountsEqual};

use no_memory::NoMemory;
use std::alloc::Global;

/// How many of some numbers are below each number up to a bound.
pub(crate) fn counts_below(alloc: Global, numbers: &[u32], bound: u32) -> Result<Vec<u32>, NoMemory>
    requires few { length numbers.now < 2 ^ 32 }
    requires bounded { All (λ number. number ≤ bound) numbers.now }
    ensures { IfOk result (λ counts. AreCountsBelow numbers.now bound counts.items) }
{
    let equal = counts_equal(alloc, numbers, bound)?;
    let mut below = Vec::new(alloc);
    let mut total = 0;
    for count in &equal {
        below.push(total)?;
        total += *count;
    }
    Ok(below)
}

// How many of some numbers are equal to each number up to a bound.
fn counts_equal(alloc: Global, numbers: &[u32], bound: u32) -> Result<Vec<u32>, NoMemory>
    requires few { length numbers.now < 2 ^ 32 }
    requires bounded { All (λ number. number ≤ bound) numbers.now }
    ensures { IfOk result (λ counts. AreCountsEqual numbers.now bound counts.items) }
{
    let mut counts = vec![in alloc; 0; bound as usize + 1]?;
    for number in numbers {
        counts[*number as usize] += 1;
    }
    Ok(counts)
}
