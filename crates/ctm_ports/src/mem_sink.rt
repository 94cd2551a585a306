use crate::calls::NumberedCalls;
use crate::sink::{Sink, Wrote};
use std::alloc::Global;
use std::marker::Model;

/// A sink in memory that takes bytes in chunks, and fails at chosen calls.
#[derive(Debug, Drop)]
pub struct MemSink {
    bytes: Vec<u8>,
    chunk: usize,
    calls: NumberedCalls,
    wants: u64,
}

impl Model for MemSink {
    ghost use Rattle.std.specs.Prelude.{◌<◌};
    ghost use Rattle.ctm_ports.specs.MemSink.{Store};

    ghost Value = { Store };

    ghost view = { λ s. record { taken = s.bytes.items; chunk = s.chunk; calls = s.calls; wants = s.wants } };

    ghost invariant = { λ s. 0 < s.chunk };
}

impl MemSink {
    ghost use Rattle.std.specs.Prelude.{◌≡◌, ◌≤◌, []};
    ghost use Rattle.ctm_ports.specs.Calls.{no_calls};

    /// An empty sink. A write takes at most `chunk` bytes, and the writes whose numbers, from 0, are
    /// in `fails` fail.
    pub fn new(alloc: Global, chunk: usize, fails: Vec<u64>) -> MemSink
        requires { 1 ≤ chunk }
        ensures taken { result.taken ≡ [] }
        ensures chunk { result.chunk ≡ chunk }
        ensures calls { result.calls ≡ no_calls fails.items }
        ensures wants { result.wants ≡ 0 }
    {
        MemSink {
            bytes: Vec::new(alloc),
            chunk,
            calls: NumberedCalls::new(fails),
            wants: 0,
        }
    }

    /// The bytes taken so far.
    pub fn bytes(&self) -> &[u8]
        ensures { result.now ≡ self.now.taken }
    {
        self.bytes.as_slice()
    }
}

impl Sink for MemSink {
    ghost use Rattle.std.specs.Prelude.{◌≡◌, ◌<◌, ◌≤◌, ◌↔◌, Some, ◌++◌, IsTrue, length, min, take};
    ghost use Rattle.ctm_ports.specs.Count.{Rose};
    ghost use Rattle.ctm_ports.specs.Calls.{next_fails};
    ghost use Rattle.ctm_ports.specs.Wrote.{IfTook, UnlessTook, OnFailed, OnNoMemory};
    ghost use Rattle.ctm_ports.specs.MemSink.{after_write};

    ghost taken = { λ s. Some s.taken };

    ghost faults = { λ s. s.calls.faults };

    ghost wants = { λ s. s.wants };

    fn write(&mut self, piece: &[u8]) -> Wrote
        requires { 0 < length piece.now }

        // What every sink ensures.
        ensures size { IfTook result (λ n. (1 ≤ n) × (n ≤ length piece.now)) }
        ensures took { IfTook result (λ n. self.new.taken ≡ self.old.taken ++ take n piece.now) }
        ensures kept { UnlessTook result (self.new.taken ≡ self.old.taken) }
        ensures failed { OnFailed result (Rose self.old.calls.faults self.new.calls.faults) }
        ensures no_memory { OnNoMemory result (Rose self.old.wants self.new.wants) }
        ensures faults_never_fall { self.old.calls.faults ≤ self.new.calls.faults }
        ensures wants_never_fall { self.old.wants ≤ self.new.wants }

        // What this one does at each call.
        ensures fails { (result ≡ Wrote.Failed) ↔ IsTrue (next_fails self.old.calls) }
        ensures amount { IfTook result (λ n. n ≡ min (length piece.now) self.old.chunk) }
        ensures store { self.new ≡ after_write self.old piece.now result }
    {
        if self.calls.next_fails() {
            return Wrote::Failed;
        }
        let n = piece.len().min(self.chunk);
        if self.bytes.extend_from_slice(&piece[..n]).is_err() {
            self.wants = self.wants.saturating_add(1);
            return Wrote::NoMemory;
        }
        Wrote::Took(n)
    }
}
