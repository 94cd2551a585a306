ghost use Rattle.std.specs.Prelude.{◌≡◌, ◌<◌, ◌^◌, ℕ, All, IfOk, Result, length, map, slice_index_or};
ghost use Rattle.network_file.specs.Network.{Network};
ghost use Rattle.plan_choice.specs.Choice.{AreDelayResults, IsDelayResult, whole_delay};

use crate::whole_run::whole_delay;
use network_file::Net;
use no_memory::NoMemory;
use std::alloc::Global;
use std::thread::{Threads, map_indices};

/// The delay of each network. They are run side by side, each in a thread of its own where one can be made.
pub(crate) fn delays<R: Threads + Sync>(
    rt: &R,
    alloc: Global,
    nets: &[Net],
) -> Result<Vec<u128>, NoMemory>
    ensures delays { IfOk result (λ delays. delays.items ≡ map whole_delay nets.now) }
    ensures few { IfOk result (λ delays. All (λ delay. delay < 2 ^ 96) delays.items) }
{
    let found = run_all(rt, alloc, nets)?;
    let mut delays = Vec::new(alloc);
    for delay in &found {
        match delay {
            Ok(delay) => delays.push(*delay)?,
            Err(NoMemory) => return Err(NoMemory),
        }
    }
    Ok(delays)
}

// What came of the run of each network.
fn run_all<R: Threads + Sync>(
    rt: &R,
    alloc: Global,
    nets: &[Net],
) -> Result<Vec<Result<u128, NoMemory>>, NoMemory>
    ensures { IfOk result (λ found. AreDelayResults nets.now found.items) }
{
    let run = move |p: usize| -> Result<u128, NoMemory>
        requires { p < length nets.now }
        ensures { (net : Network) → IsDelayResult (slice_index_or nets.entry.now p net) result }
    { whole_delay(alloc, &nets[p]) };
    Ok(map_indices(rt, alloc, nets.len(), &run)?)
}
