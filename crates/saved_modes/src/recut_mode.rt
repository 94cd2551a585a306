ghost use Rattle.std.specs.Prelude.{◌≡◌, ◌≤◌, IfErr, IfOk, IsOk, None, length, IsOkAnd};
ghost use Rattle.command_words.specs.Words.{IsInRange};
ghost use Rattle.network_file.specs.Reading.{network_of};
ghost use Rattle.network_file.specs.declared.limits.TheConstants.{MOST_BYTES, MOST_REGIONS};
ghost use Rattle.delay_report.specs.Report.{report_of};
ghost use Rattle.call_ending.specs.Refusing.{IsRefusalOf};
ghost use Rattle.saved_modes.specs.RecutMode.{IsRecutText, recut_refused};
ghost use Rattle.saved_modes.specs.Recutting.{part_cutting, part_cuttings};
ghost use Rattle.network_run.specs.ToldParts.{HasToldParts};
ghost use Rattle.call_beginning.specs.UsedRegions.{regions_wanted};
ghost use Rattle.call_beginning.specs.Task.{task_of};

use crate::recutting::recut_report;
use call_beginning::{network_in, regions_wanted};
use call_ending::Refusal;
use command_words::Request;
use network_file::{MOST_REGIONS, Net};
use no_memory::NoMemory;
use region_cut::Cut;
use region_slots::Observer;
use std::alloc::Global;
use std::thread::Threads;

/// The report of a network that workers take through its steps in parts, each in another cutting.
pub fn recut_text<R: Threads + Sync, W: Observer>(
    rt: &R,
    alloc: Global,
    request: Request,
    input: &[u8],
    observer: &W,
) -> Result<Vec<u8>, Refusal>
    requires in_range { IsInRange request }
    requires few_bytes { length input.now ≤ MOST_BYTES }
    ensures text { IfOk result (λ text. (recut_refused (task_of request input.now) ≡ None) × IsRecutText (task_of request input.now) text.items) }
    ensures told { IfOk result (λ text. IsOkAnd (network_of input.now) (λ net. HasToldParts (W.told_held observer.now) (W.told_freed observer.now) net (part_cuttings (length net.cells) (regions_wanted (length net.cells) request) request.parts))) }
    ensures refusal { IfErr result (IsRefusalOf (recut_refused (task_of request input.now)) ⊥) }
{
    let net = match network_in(alloc, input) {
        Ok(net) => net,
        Err(refusal) => return Err(refusal),
    };
    Ok(report_in_parts(rt, alloc, &net, request, observer)?)
}

// The report, whatever the parts.
fn report_in_parts<R: Threads + Sync, W: Observer>(
    rt: &R,
    alloc: Global,
    net: &Net,
    request: Request,
    observer: &W,
) -> Result<Vec<u8>, NoMemory>
    requires { IsInRange request }
    ensures text { IfOk result (λ text. text.items ≡ report_of net.now 0) }
    ensures told { IsOk result → HasToldParts (W.told_held observer.now) (W.told_freed observer.now) net.now (part_cuttings (length net.now.cells) (regions_wanted (length net.now.cells) request) request.parts) }
{
    let _steps = net.steps;
    let regions = regions_wanted(net, request);
    let cuts = cuts_of_parts(alloc, net, regions, request.parts)?;
    recut_report(rt, alloc, net, cuts, request.workers, observer)
}

// The cuttings of so many parts.
fn cuts_of_parts(alloc: Global, net: &Net, regions: u32, parts: u32) -> Result<Vec<Cut>, NoMemory>
    requires some { 1 ≤ regions }
    requires few { regions ≤ MOST_REGIONS }
    requires few_parts { parts ≤ 64 }
    ensures { IfOk result (λ cuts. cuts.items ≡ part_cuttings (length net.now.cells) regions parts) }
{
    let _cells = &net.cells;
    let mut cuts = Vec::new(alloc);
    for i in 0..parts {
        cuts.push(cut_of_part(alloc, net, regions, i + 1)?)?;
    }
    Ok(cuts)
}

// The cutting of part `i`, from 1 on.
fn cut_of_part(alloc: Global, net: &Net, regions: u32, i: u32) -> Result<Cut, NoMemory>
    requires some { 1 ≤ regions }
    requires few { regions ≤ MOST_REGIONS }
    requires part { (1 ≤ i) × (i ≤ 64) }
    ensures { IfOk result (λ cut. cut ≡ part_cutting (length net.now.cells) regions i) }
{
    let cells = net.cells.len() as u32;
    let wanted = (regions + i - 2) % MOST_REGIONS + 1;
    Cut::even(alloc, net, wanted.min(cells))
}
