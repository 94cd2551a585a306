ghost use Rattle.std.specs.Prelude.{◌≡◌, ℕ, List, None, IfErr, IfOk, IfSome, OnOk, is_some, true};
ghost use Rattle.std.specs.Io.KnownBytes.{IsAtEnd};
ghost use Rattle.ctm_ports.specs.Count.{Rose};
ghost use Rattle.ctm_ports.specs.ReadEnd.{LosesAtMost};
ghost use Rattle.call_ending.specs.Refusing.{IsRefusalOf, status_of};
ghost use Rattle.call_ending.specs.declared.status.Status.TheVariants as status;
ghost use Rattle.wait_call.specs.Answer.{answer_of, most_bytes_read, why_in};
ghost use Rattle.wait_call.specs.Telling.{IsReported};
ghost use Rattle.wait_call.specs.Words.{workers_asked};

use crate::input::input_of;
use crate::report::report_in;
use crate::words::workers_of;
use call_ending::Refusal;
use ctm_ports::Source;
use region_slots::Observer;
use std::alloc::Global;
use std::sync::Wait;
use std::thread::Threads;

/// The report of the network that the source gives, run by as many workers as the words ask for, or why there is none.
pub(crate) fn answer<R: Threads + Wait + Sync, S: Source, W: Observer>(
    rt: &R,
    alloc: Global,
    words: &[String],
    source: &mut S,
    observer: &W,
) -> Result<Vec<u8>, Refusal>
    ensures text { IfOk result (λ text. (input : List ℕ) × IfSome (S.left source.old) (λ bytes. input ≡ bytes)
        × IsReported (W.told_held observer.now) (W.told_freed observer.now) (answer_of words.now input) text.items) }
    ensures refusal { IfErr result (λ refusal. (input : List ℕ) × IfSome (S.left source.old) (λ bytes. input ≡ bytes)
        × IsRefusalOf (why_in (answer_of words.now input)) ((is_some (workers_asked words.now) ≡ true) × Rose (S.faults source.old) (S.faults source.new)) refusal) }
    ensures words { IfErr result (λ refusal. workers_asked words.now ≡ None → status_of refusal ≡ status.Words) }
    ensures accepted { OnOk result (is_some (workers_asked words.now) ≡ true) }
    ensures unread { workers_asked words.now ≡ None → source.new ≡ source.old }
    ensures at_end { OnOk result (IsAtEnd (S.left source.new)) }
    ensures bounded { LosesAtMost (S.left source.old) (S.left source.new) (most_bytes_read (workers_asked words.now)) }
{
    let workers = match workers_of(words) {
        Ok(workers) => workers,
        Err(refusal) => return Err(refusal),
    };
    let input = match input_of(alloc, source) {
        Ok(input) => input,
        Err(refusal) => return Err(refusal),
    };
    report_in(rt, alloc, &input, workers, observer)
}
