ghost use Rattle.std.specs.Prelude.{◌≡◌, ◌≤◌, IfErr, IfOk, IsOk, None, length, IsOkAnd};
ghost use Rattle.command_words.specs.Words.{IsInRange};
ghost use Rattle.network_file.specs.declared.limits.TheConstants.{MOST_BYTES};
ghost use Rattle.call_ending.specs.Refusing.{IsRefusalOf};
ghost use Rattle.run_modes.specs.RunMode.{IsReport, IsRunText, run_refused};
ghost use Rattle.call_beginning.specs.Task.{task_of};
ghost use Rattle.network_file.specs.Reading.{network_of};
ghost use Rattle.call_beginning.specs.UsedCutting.{IsCuttingOf};
ghost use Rattle.network_run.specs.Telling.{HasToldIn};

use call_beginning::{large_record, layout_asked, network_in, records_too_much};
use call_ending::Refusal;
use command_words::Request;
use delay_report::report;
use network_file::Net;
use network_run::last_regions;
use no_memory::NoMemory;
use region_slots::Observer;
use std::alloc::Global;
use std::thread::Threads;

/// The report of a network that workers take through all its steps, in regions.
pub fn run_text<R: Threads + Sync, W: Observer>(
    rt: &R,
    alloc: Global,
    request: Request,
    input: &[u8],
    observer: &W,
) -> Result<Vec<u8>, Refusal>
    requires in_range { IsInRange request }
    requires few_bytes { length input.now ≤ MOST_BYTES }
    ensures text { IfOk result (λ text. (run_refused (task_of request input.now) ≡ None) × IsRunText (task_of request input.now) text.items) }
    ensures told { IfOk result (λ text. IsOkAnd (network_of input.now) (λ net. HasToldIn (W.told_held observer.now) (W.told_freed observer.now) (IsCuttingOf net request) net request.every net.steps)) }
    ensures refusal { IfErr result (IsRefusalOf (run_refused (task_of request input.now)) ⊥) }
{
    let net = match network_in(alloc, input) {
        Ok(net) => net,
        Err(refusal) => return Err(refusal),
    };
    if records_too_much(&net, u64::from(request.every)) {
        return Err(large_record());
    }
    Ok(report_of_run(rt, alloc, &net, request, observer)?)
}

// The report, whatever it records.
fn report_of_run<R: Threads + Sync, W: Observer>(
    rt: &R,
    alloc: Global,
    net: &Net,
    request: Request,
    observer: &W,
) -> Result<Vec<u8>, NoMemory>
    requires { IsInRange request }
    ensures text { IfOk result (λ text. IsReport net.now request.every text.items) }
    ensures told { IsOk result → HasToldIn (W.told_held observer.now) (W.told_freed observer.now) (IsCuttingOf net.now request) net.now request.every net.now.steps }
{
    let _steps = net.steps;
    let every = u64::from(request.every);
    let layout = layout_asked(alloc, net, request)?;
    let regions = last_regions(rt, alloc, layout, every, request.workers, observer)?;
    report(alloc, &regions)
}
