ghost use Rattle.std.specs.Prelude.{◌≡◌, ◌≤◌, ◌*◌, IfErr, IfOk, None, Some, codes, length, nat_lt, IsOkAnd};
ghost use Rattle.command_words.specs.Words.{IsInRange};
ghost use Rattle.network_file.specs.declared.limits.TheConstants.{MOST_BYTES};
ghost use Rattle.call_ending.specs.Refusing.{IsRefusalOf};
ghost use Rattle.call_ending.specs.declared.status.Status.TheVariants as status;
ghost use Rattle.call_beginning.specs.Task.{task_of};
ghost use Rattle.run_modes.specs.WatchMode.{HasShotsAndReport, IsWatchText, watch_refused};
ghost use Rattle.network_file.specs.Reading.{network_of};
ghost use Rattle.network_run.specs.Telling.{HasTold, zero_run};
ghost use Rattle.network_run.specs.ToldShots.{HasToldShots};

use call_beginning::{large_record, layout_asked, network_in, records_too_much};
use call_ending::{Cause, Line, Refusal};
use command_words::Request;
use delay_report::report;
use network_file::Net;
use network_run::{Watched, watched_regions};
use no_memory::NoMemory;
use region_slots::Observer;
use region_step::Setup;
use std::alloc::Global;
use std::thread::Threads;

/// The most rows that a run's shots may show: cells times shots.
const MOST_SHOWN: u64 = 4_000_000;

/// The shots and the report of a network that workers take through all its steps, in regions.
pub fn watch_text<R: Threads + Sync, W: Observer>(
    rt: &R,
    alloc: Global,
    request: Request,
    input: &[u8],
    observer: &W,
) -> Result<Vec<u8>, Refusal>
    requires in_range { IsInRange request }
    requires few_bytes { length input.now ≤ MOST_BYTES }
    ensures text { IfOk result (λ text. (watch_refused (task_of request input.now) ≡ None) × IsWatchText (task_of request input.now) text.items) }
    ensures told { IfOk result (λ text. IsOkAnd (network_of input.now) (λ net. (shown : HasShotsAndReport net request text.items) × HasTold (W.told_held observer.now) (W.told_freed observer.now) (zero_run net shown.cut request.every) net.steps × HasToldShots (W.told_watching observer.now) (W.told_watched observer.now) (zero_run net shown.cut request.every) request.shots shown.are.steps)) }
    ensures refusal { IfErr result (IsRefusalOf (watch_refused (task_of request input.now)) ⊥) }
{
    let net = match network_in(alloc, input) {
        Ok(net) => net,
        Err(refusal) => return Err(refusal),
    };
    if records_too_much(&net, u64::from(request.every)) {
        return Err(large_record());
    }
    if shows_too_much(&net, request.shots) {
        return Err(large_shots());
    }
    Ok(shots_and_report(rt, alloc, &net, request, observer)?)
}

// Whether so many shots would show more rows than they may.
fn shows_too_much(net: &Net, shots: u32) -> bool
    ensures { result ≡ nat_lt 4_000_000 (length net.now.cells * shots) }
{
    net.cells.len() as u64 * u64::from(shots) > MOST_SHOWN
}

// The refusal of a run whose shots would.
fn large_shots() -> Refusal
    ensures { IsRefusalOf (Some (record { status = status.TooLarge; line = codes "ctm: too large: shots\n" })) ⊥ result }
{
    Refusal::Told(Cause::TooLarge, Line::Fixed(b"ctm: too large: shots\n"))
}

// The shots and the report, whatever they show and record.
fn shots_and_report<R: Threads + Sync, W: Observer>(
    rt: &R,
    alloc: Global,
    net: &Net,
    request: Request,
    observer: &W,
) -> Result<Vec<u8>, NoMemory>
    requires { IsInRange request }
    ensures text { IfOk result (λ text. HasShotsAndReport net.now request text.items) }
    ensures told { IfOk result (λ text. (shown : HasShotsAndReport net.now request text.items) × HasTold (W.told_held observer.now) (W.told_freed observer.now) (zero_run net.now shown.cut request.every) net.now.steps × HasToldShots (W.told_watching observer.now) (W.told_watched observer.now) (zero_run net.now shown.cut request.every) request.shots shown.are.steps) }
{
    let _steps = net.steps;
    let layout = layout_asked(alloc, net, request)?;
    let setup = Setup::zero(alloc, layout, u64::from(request.every))?;
    let Watched { mut shots, regions } = watched_regions(
        rt,
        alloc,
        setup,
        request.workers,
        request.shots,
        observer,
    )?;
    let report = report(alloc, &regions)?;
    shots.extend_from_slice(&report)?;
    Ok(shots)
}
