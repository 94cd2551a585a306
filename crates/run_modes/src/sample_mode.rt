ghost use Rattle.std.specs.Prelude.{◌≡◌, ◌≤◌, ◌++◌, IfErr, IfOk, IsOk, None, OnOk, length, IsOkAnd};
ghost use Rattle.command_words.specs.Words.{IsInRange};
ghost use Rattle.network_file.specs.declared.limits.TheConstants.{MOST_BYTES};
ghost use Rattle.call_ending.specs.Refusing.{IsRefusalOf};
ghost use Rattle.run_modes.specs.SampleMode.{IsSampleCutting, IsSampleText, sample_line, sample_of, sample_refused};
ghost use Rattle.call_beginning.specs.Task.{task_of};
ghost use Rattle.network_file.specs.Reading.{network_of};
ghost use Rattle.network_run.specs.Telling.{HasToldIn};

use call_beginning::{network_in, regions_wanted};
use call_ending::Refusal;
use command_words::Request;
use delay_report::put_last_totals;
use line_fields::put_count;
use network_file::Net;
use network_run::last_regions;
use no_memory::NoMemory;
use region_cut::charted;
use region_slots::Observer;
use std::alloc::Global;
use std::thread::Threads;

/// What is in a made network, and its totals once workers have taken it through all its steps, in regions.
pub fn sample_text<R: Threads + Sync, W: Observer>(
    rt: &R,
    alloc: Global,
    request: Request,
    input: &[u8],
    observer: &W,
) -> Result<Vec<u8>, Refusal>
    requires in_range { IsInRange request }
    requires few_bytes { length input.now ≤ MOST_BYTES }
    ensures text { IfOk result (λ text. (sample_refused (task_of request input.now) ≡ None) × IsSampleText (task_of request input.now) text.items) }
    ensures told { IfOk result (λ text. IsOkAnd (network_of input.now) (λ net. HasToldIn (W.told_held observer.now) (W.told_freed observer.now) (IsSampleCutting net request) net 0 net.steps)) }
    ensures refusal { IfErr result (IsRefusalOf (sample_refused (task_of request input.now)) ⊥) }
{
    match network_in(alloc, input) {
        Ok(net) => Ok(sample_totals(rt, alloc, &net, request, observer)?),
        Err(refusal) => Err(refusal),
    }
}

// The lines of a network.
#[tactic(auto, unfolding(crate::specs::SampleMode::sample_of))]
fn sample_totals<R: Threads + Sync, W: Observer>(
    rt: &R,
    alloc: Global,
    net: &Net,
    request: Request,
    observer: &W,
) -> Result<Vec<u8>, NoMemory>
    requires { IsInRange request }
    ensures text { IfOk result (λ text. text.items ≡ sample_of request.size request.seed net.now) }
    ensures told { IsOk result → HasToldIn (W.told_held observer.now) (W.told_freed observer.now) (IsSampleCutting net.now request) net.now 0 net.now.steps }
{
    let _steps = net.steps;
    let layout = charted(alloc, net, regions_wanted(net, request))?;
    let regions = last_regions(rt, alloc, layout, 0, request.workers, observer)?;
    let mut text = Vec::new(alloc);
    put_sample_line(&mut text, net, request.size, request.seed)?;
    put_last_totals(alloc, &regions, &mut text)?;
    Ok(text)
}

#[tactic(auto, unfolding(crate::specs::SampleMode::sample_line))]
fn put_sample_line(text: &mut Vec<u8>, net: &Net, size: u32, seed: u32) -> Result<(), NoMemory>
    ensures { OnOk result (text.new.items ≡ text.old.items ++ sample_line size seed net.now) }
{
    text.extend_from_slice(b"sample")?;
    put_count(text, u64::from(size))?;
    put_count(text, u64::from(seed))?;
    put_count(text, net.cells.len() as u64)?;
    put_count(text, net.connectors.len() as u64)?;
    put_count(text, net.steps)?;
    text.extend_from_slice(b"\n")?;
    Ok(())
}
