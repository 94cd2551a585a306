ghost use Rattle.std.specs.Prelude.{◌≡◌, ◌<◌, ◌≤◌, ◌^◌, IfOk, length};
ghost use Rattle.network_file.specs.declared.limits.TheConstants.{MOST_REGIONS};
ghost use Rattle.cut_grow.specs.BestRuns.{IsBestIn};
ghost use Rattle.cut_grow.specs.Orders.{IsPermutation};

use crate::gains::{Gains, run_gains};
use crate::places::places;
use crate::runs::regions;
use crate::sizes::Sizes;
use crate::span::spans;
use crate::table::table;
use crate::trace::best_runs;
use network_file::Net;
use no_memory::NoMemory;
use std::alloc::Global;

/// A cutting in even runs of an order, and how many connectors it doesn't cut.
#[derive(Drop)]
pub(crate) struct InRuns {
    pub(crate) regions: Vec<u32>,
    pub(crate) kept: u64,
}

/// A cutting in `k` even runs of an order that cuts the fewest connectors.
pub(crate) fn best_in(alloc: Global, net: &Net, order: &[u32], k: u32) -> Result<InRuns, NoMemory>
    requires order { IsPermutation (length net.now.cells) order.now }
    requires some { 1 ≤ k }
    requires few { k ≤ MOST_REGIONS }
    requires cells { k ≤ length net.now.cells }
    ensures { IfOk result (λ best. IsBestIn net.now k order.now best.regions.items best.kept) }
{
    let connectors = net.connectors.as_slice();
    let cells = order.len() as u32;
    let sizes = Sizes {
        floor: cells / k,
        smalls: k - cells % k,
        larges: cells % k,
    };
    let places = places(alloc, order)?;
    let spans = spans(alloc, connectors, &places)?;
    let small = run_gains(alloc, &spans, sizes.floor, cells)?;
    let large = run_gains(alloc, &spans, sizes.floor + 1, cells)?;
    let gains = Gains {
        spans,
        small,
        large,
    };
    let best = table(alloc, &gains, sizes)?;
    let runs = best_runs(alloc, &gains, sizes, &best)?;
    let regions = regions(alloc, &runs, &places)?;
    Ok(InRuns {
        regions,
        kept: best[best.len() - 1],
    })
}
