ghost use Rattle.std.specs.Prelude.{◌≡◌, ◌≤◌, ℕ, List, None, IfErr, IfOk, OnOk, false, length, true};
ghost use Rattle.ctm_ports.specs.Count.{Rose};
ghost use Rattle.ctm_ports.specs.ReadEnd.{LosesAtMost};
ghost use Rattle.command_words.specs.Words.{IsInRange};
ghost use Rattle.call_ending.specs.Refusing.{IsRefusalOf};
ghost use Rattle.ctm_call.specs.Answer.{IsTextBy, why_by, why_none};
ghost use Rattle.ctm_call.specs.Telling.{IsAnswered, IsToldBy};
ghost use Rattle.call_beginning.specs.Input.{IsInputOf, IsReadWhole, asks_source, most_input, most_read};
ghost use Rattle.call_beginning.specs.Task.{task_of};
ghost use Rattle.call_beginning.specs.Words.{requested};

use call_beginning::{input_of, request_of};
use call_ending::Refusal;
use command_words::{Mode, Request};
use ctm_ports::Source;
use region_slots::Observer;
use run_modes::{run_text, sample_text, watch_text};
use saved_modes::{recut_text, resume_text, save_text};
use std::alloc::Global;
use std::thread::Threads;
use workerless_modes::{check_text, choose_text, convert_text, cut_text};

/// The text that answers the words over the input that the source gives, or why there is none.
pub(crate) fn answer<R: Threads + Sync, S: Source, W: Observer>(
    rt: &R,
    alloc: Global,
    words: &[String],
    source: &mut S,
    observer: &W,
) -> Result<Vec<u8>, Refusal>
    ensures text { IfOk result (λ text. (input : List ℕ) × IsInputOf (requested words.now) (S.left source.old) input
        × IsAnswered (W.told_held observer.now) (W.told_freed observer.now) (W.told_watching observer.now) (W.told_watched observer.now) (requested words.now) input text.items) }
    ensures refusal { IfErr result (λ refusal. (input : List ℕ) × IsInputOf (requested words.now) (S.left source.old) input
        × IsRefusalOf (why_none (requested words.now) input) ((asks_source (requested words.now) ≡ true) × Rose (S.faults source.old) (S.faults source.new)) refusal) }
    ensures unread { asks_source (requested words.now) ≡ false → source.new ≡ source.old }
    ensures at_end { OnOk result (IsReadWhole (requested words.now) (S.left source.new)) }
    ensures bounded { LosesAtMost (S.left source.old) (S.left source.new) (most_read (requested words.now)) }
{
    let request = match request_of(alloc, words) {
        Ok(request) => request,
        Err(refusal) => return Err(refusal),
    };
    let input = match input_of(alloc, request, source) {
        Ok(input) => input,
        Err(refusal) => return Err(refusal),
    };
    text_of(rt, alloc, request, &input, observer)
}

// The text that answers a request with an input, by its mode.
fn text_of<R: Threads + Sync, W: Observer>(
    rt: &R,
    alloc: Global,
    request: Request,
    input: &[u8],
    observer: &W,
) -> Result<Vec<u8>, Refusal>
    requires in_range { IsInRange request }
    requires few_bytes { length input.now ≤ most_input request.mode }
    ensures text { IfOk result (λ text. (why_by request.mode (task_of request input.now) ≡ None) × IsTextBy request.mode (task_of request input.now) text.items) }
    ensures told { IfOk result (λ text. IsToldBy (W.told_held observer.now) (W.told_freed observer.now) (W.told_watching observer.now) (W.told_watched observer.now) request.mode (task_of request input.now) text.items) }
    ensures refusal { IfErr result (IsRefusalOf (why_by request.mode (task_of request input.now)) ⊥) }
{
    match request.mode {
        Mode::Run => run_text(rt, alloc, request, input, observer),
        Mode::Watch => watch_text(rt, alloc, request, input, observer),
        Mode::Sample => sample_text(rt, alloc, request, input, observer),
        Mode::Save => save_text(rt, alloc, request, input, observer),
        Mode::Resume => resume_text(rt, alloc, request, input, observer),
        Mode::Choose => choose_text(rt, alloc, input),
        Mode::Recut => recut_text(rt, alloc, request, input, observer),
        Mode::Cut => cut_text(alloc, request, input),
        Mode::Check => check_text(alloc, input),
        Mode::Convert => convert_text(alloc, input),
    }
}
