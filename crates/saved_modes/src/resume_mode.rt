ghost use Rattle.std.specs.Prelude.{◌≡◌, ◌≤◌, IfErr, IfOk, IsOk, IsSomeAnd, None, Some};
ghost use Rattle.command_words.specs.Words.{IsInRange};
ghost use Rattle.saved_run.specs.Loading.{CanStart, IsCutSo, start_in};
ghost use Rattle.saved_run.specs.Reading.{content_of};
ghost use Rattle.delay_report.specs.FromStart.{report_from};
ghost use Rattle.call_ending.specs.Refusing.{IsRefusalOf};
ghost use Rattle.saved_modes.specs.ResumeMode.{IsResumeText, resume_refused, saved_refused, why_of_fault};
ghost use Rattle.network_run.specs.Telling.{HasTold};
ghost use Rattle.network_run.specs.ToldParts.{HasToldOn};
ghost use Rattle.call_beginning.specs.Task.{task_of};

use call_beginning::refused;
use call_ending::{Cause, Line, Refusal};
use command_words::Request;
use delay_report::report;
use network_run::regions_from;
use no_memory::{NoMemory, Refused};
use region_cut::Layout;
use region_slots::Observer;
use region_step::{Setup, Start};
use saved_run::{LoadFault, Saved, load};
use std::alloc::Global;
use std::thread::Threads;

/// The report of a saved run that workers take on to the last step.
pub fn resume_text<R: Threads + Sync, W: Observer>(
    rt: &R,
    alloc: Global,
    request: Request,
    input: &[u8],
    observer: &W,
) -> Result<Vec<u8>, Refusal>
    requires in_range { IsInRange request }
    ensures text { IfOk result (λ text. (resume_refused (task_of request input.now) ≡ None) × IsResumeText (task_of request input.now) text.items) }
    ensures told { IfOk result (λ text. IsSomeAnd (content_of input.now) (λ content. HasToldOn (W.told_held observer.now) (W.told_freed observer.now) (IsCutSo content) (start_in content))) }
    ensures refusal { IfErr result (IsRefusalOf (resume_refused (task_of request input.now)) ⊥) }
{
    let saved = match load(alloc, input) {
        Ok(saved) => saved,
        Err(Refused::Fault(fault)) => return Err(unsaved(alloc, fault)),
        Err(Refused::NoMemory) => return Err(Refusal::NoMemory),
    };
    let Saved { net, chart, start } = saved;
    let layout = Layout::of(&net, chart);
    let text = report_on(rt, alloc, layout, start, request.workers, observer)?;
    Ok(text)
}

// The report of regions that go on from a start.
fn report_on<R: Threads + Sync, W: Observer>(
    rt: &R,
    alloc: Global,
    layout: Layout<'_>,
    start: Start,
    workers: u32,
    observer: &W,
) -> Result<Vec<u8>, NoMemory>
    requires can_start { CanStart layout.net layout.chart.cut start }
    requires workers { (1 ≤ workers) × (workers ≤ 16) }
    ensures text { IfOk result (λ text. text.items ≡ report_from layout.entry.net layout.entry.chart.cut start) }
    ensures told { IsOk result → HasTold (W.told_held observer.now) (W.told_freed observer.now) (record { net = layout.entry.net; cut = layout.entry.chart.cut; start = start; every = 0 }) layout.entry.net.steps }
{
    let net = layout.net();
    let setup = Setup::new(layout, start, 0);
    let regions = regions_from(rt, alloc, setup, net.steps, workers, observer)?;
    report(alloc, &regions)
}

// The refusal of a text by its first fault.
fn unsaved(alloc: Global, fault: LoadFault) -> Refusal
    ensures { IsRefusalOf (Some (why_of_fault fault)) ⊥ result }
{
    match fault {
        LoadFault::Spelling => told(b"ctm: saved: code 1 Spelling\n"),
        LoadFault::Network(fault) => refused(alloc, Refused::Fault(fault)),
        LoadFault::Cutting => told(b"ctm: saved: code 3 Cutting\n"),
        LoadFault::Start => told(b"ctm: saved: code 4 Start\n"),
    }
}

// The refusal with this line.
fn told(line: &'static [u8]) -> Refusal
    ensures { IsRefusalOf (Some (saved_refused line.now)) ⊥ result }
{
    Refusal::Told(Cause::Saved, Line::Fixed(line))
}
