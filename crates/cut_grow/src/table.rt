ghost use Rattle.std.specs.Prelude.{◌≡◌, ◌+◌, ◌*◌, ◌<◌, ◌≤◌, ◌^◌, IfOk, length};
ghost use Rattle.cut_grow.specs.Most.{AreGainsOf, IsTable, most, start_of};
ghost use Rattle.cut_grow.specs.Spans.{inside};

use crate::gains::Gains;
use crate::sizes::Sizes;
use no_memory::NoMemory;
use std::alloc::Global;

/// The most connectors inside runs, for each number of small ones and of large ones.
pub(crate) fn table(alloc: Global, gains: &Gains, sizes: Sizes) -> Result<Vec<u64>, NoMemory>
    requires gains { AreGainsOf (length gains.now.small.items) sizes gains.now }
    ensures table { IfOk result (λ best. IsTable sizes gains.now.spans.items best.items) }
    ensures long { IfOk result (λ best. length best.items ≡ (sizes.smalls + 1) * (sizes.larges + 1)) }
{
    let width = sizes.larges + 1;
    let mut best = Vec::new(alloc);
    for entry in 0..(sizes.smalls + 1) * width {
        best.push(most(gains, sizes, &best, entry / width, entry % width))?;
    }
    Ok(best)
}

// The most inside so many small and large runs, by the entries before.
fn most(gains: &Gains, sizes: Sizes, best: &[u64], small: u32, large: u32) -> u64
    requires gains { AreGainsOf (length gains.now.small.items) sizes gains.now }
    requires table { IsTable sizes gains.now.spans.items best.now }
    requires next { length best.now ≡ small * (sizes.larges + 1) + large }
    requires small { small ≤ sizes.smalls }
    requires large { large ≤ sizes.larges }
    ensures { result ≡ most gains.now.spans.items sizes.floor small large }
{
    let by_small = if small > 0 {
        with_small(gains, sizes, best, small - 1, large)
    } else {
        0
    };
    let by_large = if large > 0 {
        with_large(gains, sizes, best, small, large - 1)
    } else {
        0
    };
    by_small.max(by_large)
}

/// The most inside so many small and large runs and a small one behind them.
pub(crate) fn with_small(gains: &Gains, sizes: Sizes, best: &[u64], small: u32, large: u32) -> u64
    requires gains { AreGainsOf (length gains.now.small.items) sizes gains.now }
    requires table { IsTable sizes gains.now.spans.items best.now }
    requires there { small * (sizes.larges + 1) + large < length best.now }
    requires small { small < sizes.smalls }
    requires large { large ≤ sizes.larges }
    ensures { result ≡ most gains.now.spans.items sizes.floor small large + inside gains.now.spans.items (start_of sizes.floor small large) sizes.floor }
{
    let gain = gains.small[start(sizes, small, large) as usize];
    best[(small * (sizes.larges + 1) + large) as usize] + u64::from(gain)
}

// The most inside so many small and large runs and a large one behind them.
fn with_large(gains: &Gains, sizes: Sizes, best: &[u64], small: u32, large: u32) -> u64
    requires gains { AreGainsOf (length gains.now.small.items) sizes gains.now }
    requires table { IsTable sizes gains.now.spans.items best.now }
    requires there { small * (sizes.larges + 1) + large < length best.now }
    requires small { small ≤ sizes.smalls }
    requires large { large < sizes.larges }
    ensures { result ≡ most gains.now.spans.items sizes.floor small large + inside gains.now.spans.items (start_of sizes.floor small large) (sizes.floor + 1) }
{
    let gain = gains.large[start(sizes, small, large) as usize];
    best[(small * (sizes.larges + 1) + large) as usize] + u64::from(gain)
}

// How many places so many small and large runs have.
fn start(sizes: Sizes, small: u32, large: u32) -> u32
    requires { start_of sizes.floor small large < 2 ^ 32 }
    ensures { result ≡ start_of sizes.floor small large }
{
    small * sizes.floor + large * sizes.floor + large
}
