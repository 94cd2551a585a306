ghost use Rattle.std.specs.Prelude.{◌≡◌, ◌⊎◌, None, false};
ghost use Rattle.ctm_ports.specs.ReadEnd.{LosesAtMost};
ghost use Rattle.call_ending.specs.Calls.{call_of, sink_use, source_use};
ghost use Rattle.call_ending.specs.declared.status.Status.TheVariants as status;
ghost use Rattle.ctm_call.specs.Ended.{HasAnswered};
ghost use Rattle.call_beginning.specs.Input.{asks_source, most_read};
ghost use Rattle.call_beginning.specs.Words.{requested};

use crate::answer::answer;
use call_ending::{Status, end};
use ctm_ports::{Sink, Source};
use region_slots::Observer;
use std::alloc::Global;
use std::thread::Threads;

/// Does what the words ask for, over the network that the source gives, and writes the text of it on `out`, or says on
/// `err` why there is none (docs/FORMAT.md). The words are those after the program's name. Workers run in threads of
/// `rt`, and the observer is told when they take a region and give it back.
pub fn ctm<R: Threads + Sync, S: Source, O: Sink, E: Sink, W: Observer>(
    rt: &R,
    alloc: Global,
    words: &[String],
    source: &mut S,
    out: &mut O,
    err: &mut E,
    observer: &W,
) -> Status
    // The status tells how the call ended for its words and an input. The input is what the source had left, or the made
    // network; any, where the source doesn't tell its bytes. The call is done, or there is a reason for no text, or a read of
    // the source failed where the mode reads it, or a write of the text failed, or it tells that memory was refused. Where
    // `run`, `watch`, `sample`, `save`, `resume` or `recut` has its text, the observer was told of each region at each step
    // that the region is taken through, in `save` up to the last step that the text may show. In `watch` it was told of each
    // shot that the text shows. In other modes nothing is said of the observer.
    ensures ended { HasAnswered (W.told_held observer.now) (W.told_freed observer.now) (W.told_watching observer.now) (W.told_watched observer.now)
        (call_of words.now (source_use S.left S.faults source.old source.new) (sink_use O.taken O.faults O.wants out.old out.new) (sink_use E.taken E.faults E.wants err.old err.new))
        result }

    // The status is Words only where the words are refused, whatever the mode; and where they are, it is Words or
    // NoMemory.
    ensures words { result ≡ status.Words → requested words.now ≡ None }
    ensures refused { requested words.now ≡ None → (result ≡ status.Words) ⊎ (result ≡ status.NoMemory) }

    // Where the words are refused or ask for a made network the source is as it was. Else at most one byte more than the
    // longest input is read from it.
    ensures unread { asks_source (requested words.now) ≡ false → source.new ≡ source.old }
    ensures bounded { LosesAtMost (S.left source.old) (S.left source.new) (most_read (requested words.now)) }
{
    let answer = answer(rt, alloc, words, source, observer);
    end(answer, out, err)
}
