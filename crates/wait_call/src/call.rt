ghost use Rattle.std.specs.Prelude.{◌≡◌, None};
ghost use Rattle.ctm_ports.specs.ReadEnd.{LosesAtMost};
ghost use Rattle.call_ending.specs.Calls.{call_of, sink_use, source_use};
ghost use Rattle.call_ending.specs.declared.status.Status.TheVariants as status;
ghost use Rattle.wait_call.specs.Answer.{most_bytes_read};
ghost use Rattle.wait_call.specs.Ended.{HasReported};
ghost use Rattle.wait_call.specs.Words.{workers_asked};

use crate::answer::answer;
use call_ending::{Status, end};
use ctm_ports::{Sink, Source};
use region_slots::Observer;
use std::alloc::Global;
use std::sync::Wait;
use std::thread::Threads;

/// Takes the network that the source gives through its steps, and writes the report on `out`, or says on `err` why there is
/// none. The words are those after the program's name: the number of workers, from 1 to 16. They run in threads of `rt`, a
/// worker waits where it would sweep in vain, and the observer is told when they take a region and give it back. So the call
/// may wait; that it returns isn't proved.
pub fn ctm_wait<R: Threads + Wait + Sync, S: Source, O: Sink, E: Sink, W: Observer>(
    rt: &R,
    alloc: Global,
    words: &[String],
    source: &mut S,
    out: &mut O,
    err: &mut E,
    observer: &W,
) -> Status
    // There is an input, which is what the source has left where it tells it, and by the answer to the words and this input
    // the call ended in one of five ways: it is done, the answer is a refusal, a read of the source failed where the words
    // ask for a run, a write of the report failed, or memory was refused. Where there is a report the observer was told of each
    // step of the network, in the file's cutting or in the even one into 64 regions or as many as there are cells.
    ensures ended { HasReported (W.told_held observer.now) (W.told_freed observer.now)
        (call_of words.now (source_use S.left S.faults source.old source.new) (sink_use O.taken O.faults O.wants out.old out.new) (sink_use E.taken E.faults E.wants err.old err.new))
        result }

    // Status Words tells of words that are refused, and where they are there is no other.
    ensures words { result ≡ status.Words → workers_asked words.now ≡ None }
    ensures refused { workers_asked words.now ≡ None → result ≡ status.Words }

    // Where the words are refused the source is as it was, and else it is read one byte past the longest input at most.
    ensures unread { workers_asked words.now ≡ None → source.new ≡ source.old }
    ensures bounded { LosesAtMost (S.left source.old) (S.left source.new) (most_bytes_read (workers_asked words.now)) }
{
    let answer = answer(rt, alloc, words, source, observer);
    end(answer, out, err)
}
