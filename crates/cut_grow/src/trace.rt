ghost use Rattle.std.specs.Prelude.{◌≡◌, ◌+◌, ◌-◌, ◌*◌, ◌<◌, ◌≤◌, IfOk, false, length, true};
ghost use Rattle.cut_grow.specs.BestRuns.{AreBestRuns};
ghost use Rattle.cut_grow.specs.Most.{AreGainsOf, IsTable, most, start_of};
ghost use Rattle.cut_grow.specs.Spans.{inside};

use crate::gains::Gains;
use crate::sizes::Sizes;
use crate::table::with_small;
use no_memory::NoMemory;
use std::alloc::Global;

/// The sizes of runs that have the most connectors inside, by the table of the most.
pub(crate) fn best_runs(
    alloc: Global,
    gains: &Gains,
    sizes: Sizes,
    best: &[u64],
) -> Result<Vec<u32>, NoMemory>
    requires gains { AreGainsOf (length gains.now.small.items) sizes gains.now }
    requires table { IsTable sizes gains.now.spans.items best.now }
    requires long { length best.now ≡ (sizes.smalls + 1) * (sizes.larges + 1) }
    ensures { IfOk result (λ runs. AreBestRuns sizes gains.now.spans.items runs.items) }
{
    let mut runs = Vec::new(alloc);
    let mut small = sizes.smalls;
    let mut large = sizes.larges;
    for _ in 0..sizes.smalls + sizes.larges {
        if ends_small(gains, sizes, best, small, large) {
            small -= 1;
            runs.push(sizes.floor)?;
        } else {
            large -= 1;
            runs.push(sizes.floor + 1)?;
        }
    }
    runs.reverse();
    Ok(runs)
}

// Whether so many runs have the most connectors inside with a small one last; where they don't, they have with a large one.
fn ends_small(gains: &Gains, sizes: Sizes, best: &[u64], small: u32, large: u32) -> bool
    requires gains { AreGainsOf (length gains.now.small.items) sizes gains.now }
    requires table { IsTable sizes gains.now.spans.items best.now }
    requires long { length best.now ≡ (sizes.smalls + 1) * (sizes.larges + 1) }
    requires small { small ≤ sizes.smalls }
    requires large { large ≤ sizes.larges }
    requires some { 1 ≤ small + large }
    ensures small_left { result ≡ true → 1 ≤ small }
    ensures by_small { result ≡ true → most gains.now.spans.items sizes.floor small large ≡ most gains.now.spans.items sizes.floor (small - 1) large + inside gains.now.spans.items (start_of sizes.floor (small - 1) large) sizes.floor }
    ensures large_left { result ≡ false → 1 ≤ large }
    ensures by_large { result ≡ false → most gains.now.spans.items sizes.floor small large ≡ most gains.now.spans.items sizes.floor small (large - 1) + inside gains.now.spans.items (start_of sizes.floor small (large - 1)) (sizes.floor + 1) }
{
    if small == 0 {
        return false;
    }
    let most = best[(small * (sizes.larges + 1) + large) as usize];
    most == with_small(gains, sizes, best, small - 1, large)
}
