use crate::source::{Piece, Source};
use std::io::Read;

/// A source over a reader of std. Where the reader tells the bytes that it has left, each read is known to
/// give them. Each error of the reader is a fault, also one that a signal caused.
#[derive(Debug, Drop)]
pub struct StdSource<R> {
    inner: R,
    faults: u64,
}

impl<R> StdSource<R> {
    ghost use Rattle.std.specs.Prelude.{◌≡◌};
    ghost use Rattle.ctm_ports.specs.StdSource.{reader_of, reader_faults};

    /// A source over the reader, without a fault so far.
    pub fn new(inner: R) -> StdSource<R>
        ensures reader { reader_of result ≡ inner }
        ensures faults { reader_faults result ≡ 0 }
    {
        StdSource { inner, faults: 0 }
    }
}

impl<R: Read> Source for StdSource<R> {
    ghost use Rattle.std.specs.Prelude.{◌≡◌, ◌<◌, ◌≤◌, None, length, take};
    ghost use Rattle.std.specs.Io.KnownBytes.{Consumes, IsAtEnd, Keeps};
    ghost use Rattle.ctm_ports.specs.Count.{Rose};
    ghost use Rattle.ctm_ports.specs.Piece.{IfGot, UnlessGot, OnEnd, OnFailed, faults_after};
    ghost use Rattle.ctm_ports.specs.StdSource.{reader_of, reader_faults};

    ghost left = { λ s. R.remaining (reader_of s) };

    ghost faults = { reader_faults };

    fn read(&mut self, room: &mut [u8]) -> Piece
        requires { 0 < length room.old }

        // What every source ensures.
        ensures size { IfGot result (λ n. (1 ≤ n) × (n ≤ length room.new)) }
        ensures failed { OnFailed result (Rose (reader_faults self.old) (reader_faults self.new)) }
        ensures never_falls { reader_faults self.old ≤ reader_faults self.new }

        ensures got { IfGot result (λ n. Consumes (R.remaining (reader_of self.old)) (R.remaining (reader_of self.new)) (take n room.new)) }
        ensures kept { UnlessGot result (Keeps (R.remaining (reader_of self.old)) (R.remaining (reader_of self.new))) }
        ensures end { OnEnd result (IsAtEnd (R.remaining (reader_of self.new))) }
        ensures counted { reader_faults self.new ≡ faults_after (reader_faults self.old) result }
    {
        match self.inner.read(room) {
            Ok(0) => Piece::End,
            Ok(n) => Piece::Got(n),
            Err(_) => {
                self.faults = self.faults.saturating_add(1);
                Piece::Failed
            }
        }
    }
}
