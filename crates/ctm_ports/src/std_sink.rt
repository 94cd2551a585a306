use crate::sink::{Sink, Wrote};
use std::io::Write;

/// A sink over a writer of std. Where the writer tells the bytes that it has taken, each write is known to
/// append to them. Each error of the writer is a fault, also one that a signal caused, and so is each
/// write that takes nothing. It never answers `NoMemory`.
#[derive(Debug, Drop)]
pub struct StdSink<W> {
    inner: W,
    faults: u64,
}

impl<W> StdSink<W> {
    ghost use Rattle.std.specs.Prelude.{◌≡◌};
    ghost use Rattle.ctm_ports.specs.StdSink.{writer_of, writer_faults};

    /// A sink over the writer, without a fault so far.
    pub fn new(inner: W) -> StdSink<W>
        ensures writer { writer_of result ≡ inner }
        ensures faults { writer_faults result ≡ 0 }
    {
        StdSink { inner, faults: 0 }
    }
}

impl<W: Write> Sink for StdSink<W> {
    ghost use Rattle.std.specs.Prelude.{◌≡◌, ◌<◌, ◌≤◌, None, length, take};
    ghost use Rattle.std.specs.Io.KnownBytes.{Appends, Keeps};
    ghost use Rattle.ctm_ports.specs.Count.{Rose};
    ghost use Rattle.ctm_ports.specs.Wrote.{IfTook, UnlessTook, OnFailed, OnNoMemory, faults_after};
    ghost use Rattle.ctm_ports.specs.StdSink.{writer_of, writer_faults};

    ghost taken = { λ s. W.contents (writer_of s) };

    ghost faults = { writer_faults };

    ghost wants = { λ _. 0 };

    fn write(&mut self, piece: &[u8]) -> Wrote
        requires { 0 < length piece.now }

        // What every sink ensures.
        ensures size { IfTook result (λ n. (1 ≤ n) × (n ≤ length piece.now)) }
        ensures failed { OnFailed result (Rose (writer_faults self.old) (writer_faults self.new)) }
        ensures no_memory { OnNoMemory result (Rose 0 0) }
        ensures faults_never_fall { writer_faults self.old ≤ writer_faults self.new }

        ensures took { IfTook result (λ n. Appends (W.contents (writer_of self.old)) (W.contents (writer_of self.new)) (take n piece.now)) }
        ensures kept { UnlessTook result (Keeps (W.contents (writer_of self.old)) (W.contents (writer_of self.new))) }
        ensures counted { writer_faults self.new ≡ faults_after (writer_faults self.old) result }
    {
        match self.inner.write(piece) {
            Ok(0) | Err(_) => {
                self.faults = self.faults.saturating_add(1);
                Wrote::Failed
            }
            Ok(n) => Wrote::Took(n),
        }
    }
}
