use crate::sink::{Sink, Wrote};
use std::alloc::Global;
use std::marker::Model;

/// A sink in memory that fails only where memory does, and takes each piece whole.
#[derive(Debug, Drop)]
pub struct SureSink {
    bytes: Vec<u8>,
    wants: u64,
}

impl Model for SureSink {
    ghost use Rattle.ctm_ports.specs.SureSink.{SureStore};

    ghost Value = { SureStore };

    ghost view = { λ s. record { taken = s.bytes.items; wants = s.wants } };
}

impl SureSink {
    ghost use Rattle.std.specs.Prelude.{◌≡◌, []};

    /// An empty sink.
    pub fn new(alloc: Global) -> SureSink
        ensures taken { result.taken ≡ [] }
        ensures wants { result.wants ≡ 0 }
    {
        SureSink {
            bytes: Vec::new(alloc),
            wants: 0,
        }
    }

    /// The bytes taken so far.
    pub fn bytes(&self) -> &[u8]
        ensures { result.now ≡ self.now.taken }
    {
        self.bytes.as_slice()
    }
}

impl Sink for SureSink {
    ghost use Rattle.std.specs.Prelude.{◌≡◌, ◌<◌, ◌≤◌, Some, ◌++◌, length, take};
    ghost use Rattle.ctm_ports.specs.Count.{Rose};
    ghost use Rattle.ctm_ports.specs.Wrote.{IfTook, UnlessTook, OnFailed, OnNoMemory};
    ghost use Rattle.ctm_ports.specs.SureSink.{after_write};

    ghost taken = { λ s. Some s.taken };

    ghost faults = { λ _. 0 };

    ghost wants = { λ s. s.wants };

    fn write(&mut self, piece: &[u8]) -> Wrote
        requires { 0 < length piece.now }

        // What every sink ensures.
        ensures size { IfTook result (λ n. (1 ≤ n) × (n ≤ length piece.now)) }
        ensures took { IfTook result (λ n. self.new.taken ≡ self.old.taken ++ take n piece.now) }
        ensures kept { UnlessTook result (self.new.taken ≡ self.old.taken) }
        ensures sure { OnFailed result ⊥ }
        ensures no_memory { OnNoMemory result (Rose self.old.wants self.new.wants) }
        ensures wants_never_fall { self.old.wants ≤ self.new.wants }

        // What this one does.
        ensures amount { IfTook result (λ n. n ≡ length piece.now) }
        ensures store { self.new ≡ after_write self.old piece.now result }
    {
        if self.bytes.extend_from_slice(piece).is_err() {
            self.wants = self.wants.saturating_add(1);
            return Wrote::NoMemory;
        }
        Wrote::Took(piece.len())
    }
}
