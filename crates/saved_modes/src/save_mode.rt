ghost use Rattle.std.specs.Prelude.{◌≡◌, ◌≤◌, IfErr, IfOk, None, Ok, length, IsOkAnd};
ghost use Rattle.command_words.specs.Words.{IsInRange};
ghost use Rattle.network_file.specs.Reading.{network_of};
ghost use Rattle.network_file.specs.declared.limits.TheConstants.{MOST_BYTES};
ghost use Rattle.call_ending.specs.Refusing.{IsRefusalOf};
ghost use Rattle.saved_modes.specs.SaveMode.{IsSaveText, IsSavedRun, save_refused};
ghost use Rattle.network_run.specs.Near.{near_end};
ghost use Rattle.network_run.specs.Telling.{HasTold, zero_run};
ghost use Rattle.call_beginning.specs.Task.{task_of};

use call_beginning::{layout_asked, network_in};
use call_ending::Refusal;
use command_words::Request;
use network_file::Net;
use network_run::room_near;
use no_memory::NoMemory;
use region_slots::Observer;
use region_step::Setup;
use saved_run::save;
use std::alloc::Global;
use std::thread::Threads;

/// The saved text of a network whose regions workers take near a step.
pub fn save_text<R: Threads + Sync, W: Observer>(
    rt: &R,
    alloc: Global,
    request: Request,
    input: &[u8],
    observer: &W,
) -> Result<Vec<u8>, Refusal>
    requires in_range { IsInRange request }
    requires few_bytes { length input.now ≤ MOST_BYTES }
    ensures text { IfOk result (λ text. (save_refused (task_of request input.now) ≡ None) × IsSaveText (task_of request input.now) text.items) }
    ensures told { IfOk result (λ text. IsOkAnd (network_of input.now) (λ net. (saved : IsSavedRun net request input.now text.items) × HasTold (W.told_held observer.now) (W.told_freed observer.now) (zero_run net saved.cut 0) (near_end net request.until))) }
    ensures refusal { IfErr result (IsRefusalOf (save_refused (task_of request input.now)) ⊥) }
{
    match network_in(alloc, input) {
        Ok(net) => Ok(saved_near(rt, alloc, &net, input, request, observer)?),
        Err(refusal) => Err(refusal),
    }
}

// The saved text of the network of these bytes.
fn saved_near<R: Threads + Sync, W: Observer>(
    rt: &R,
    alloc: Global,
    net: &Net,
    input: &[u8],
    request: Request,
    observer: &W,
) -> Result<Vec<u8>, NoMemory>
    requires in_range { IsInRange request }
    requires network { network_of input.now ≡ Ok net.now }
    requires few_bytes { length input.now ≤ MOST_BYTES }
    ensures saved { IfOk result (λ text. IsSavedRun net.now request input.now text.items) }
    ensures told { IfOk result (λ text. (saved : IsSavedRun net.now request input.now text.items) × HasTold (W.told_held observer.now) (W.told_freed observer.now) (zero_run net.now saved.cut 0) (near_end net.now request.until)) }
{
    let _steps = net.steps;
    let until = u64::from(request.until);
    let layout = layout_asked(alloc, net, request)?;
    let _own = layout.net();
    let _regions = layout.regions();
    let setup = Setup::zero(alloc, layout, 0)?;
    let room = room_near(rt, alloc, &setup, until, request.workers, observer)?;
    let text = save(alloc, setup.layout(), &room, input)?;
    Ok(text)
}
