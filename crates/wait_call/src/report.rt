ghost use Rattle.std.specs.Prelude.{◌≡◌, ◌≤◌, IfErr, IfOk, IsOk, length};
ghost use Rattle.delay_report.specs.Report.{report_of};
ghost use Rattle.call_ending.specs.Refusing.{IsRefusalOf};
ghost use Rattle.network_file.specs.Limits.{most_bytes};
ghost use Rattle.wait_call.specs.Answer.{answer_to, why_in};
ghost use Rattle.wait_call.specs.Telling.{HasToldRun, IsReported};

use crate::waiting_run::last_regions;
use call_beginning::network_in;
use call_ending::Refusal;
use delay_report::report;
use network_file::Net;
use no_memory::NoMemory;
use region_cut::charted;
use region_slots::Observer;
use std::alloc::Global;
use std::sync::Wait;
use std::thread::Threads;

/// In how many regions a network is run whose file gives none, where it has as many cells.
const REGIONS: u32 = 64;

/// The report of the network that an input is, run by so many workers, or why there is none.
pub(crate) fn report_in<R: Threads + Wait + Sync, W: Observer>(
    rt: &R,
    alloc: Global,
    input: &[u8],
    workers: u32,
    observer: &W,
) -> Result<Vec<u8>, Refusal>
    requires few_bytes { length input.now ≤ most_bytes }
    requires workers { (1 ≤ workers) × (workers ≤ 16) }
    ensures text { IfOk result (λ text. IsReported (W.told_held observer.now) (W.told_freed observer.now) (answer_to input.now) text.items) }
    ensures refusal { IfErr result (IsRefusalOf (why_in (answer_to input.now)) ⊥) }
{
    let net = match network_in(alloc, input) {
        Ok(net) => net,
        Err(refusal) => return Err(refusal),
    };
    let text = report_of_run(rt, alloc, &net, workers, observer)?;
    Ok(text)
}

// The report of a network.
fn report_of_run<R: Threads + Wait + Sync, W: Observer>(
    rt: &R,
    alloc: Global,
    net: &Net,
    workers: u32,
    observer: &W,
) -> Result<Vec<u8>, NoMemory>
    requires { (1 ≤ workers) × (workers ≤ 16) }
    ensures text { IfOk result (λ text. text.items ≡ report_of net.now 0) }
    ensures told { IsOk result → HasToldRun (W.told_held observer.now) (W.told_freed observer.now) net.now }
{
    let _steps = net.steps;
    let layout = charted(alloc, net, REGIONS)?;
    let regions = last_regions(rt, alloc, layout, workers, observer)?;
    report(alloc, &regions)
}
