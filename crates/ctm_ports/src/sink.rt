ghost use Rattle.std.specs.Prelude.{◌≡◌, ℕ, ◌<◌, ◌≤◌, List, Option, length, take};
ghost use Rattle.std.specs.Io.KnownBytes.{Appends, Keeps};
ghost use Rattle.ctm_ports.specs.Count.{Rose};
ghost use Rattle.ctm_ports.specs.Wrote.{IfTook, UnlessTook, OnFailed, OnNoMemory};

/// What a write answers.
#[derive(Clone, Copy, Debug, PartialEq, Eq)]
pub enum Wrote {
    /// The sink took so many bytes from the front of the piece.
    Took(usize),
    /// The write failed; a later one may succeed.
    Failed,
    /// The sink found no memory for the bytes.
    NoMemory,
}

/// What takes bytes, piece by piece.
pub trait Sink {
    // The bytes taken so far, where the sink tells them.
    ghost taken: { Self → Option (List ℕ) };

    // How many writes failed, and how many got no memory: two counts that never fall.
    ghost faults: { Self → ℕ };

    ghost wants: { Self → ℕ };

    /// Writes bytes from the front of the piece.
    fn write(&mut self, piece: &[u8]) -> Wrote
        requires { 0 < length piece.now }
        ensures size { IfTook result (λ n. (1 ≤ n) × (n ≤ length piece.now)) }
        ensures took { IfTook result (λ n. Appends (taken self.old) (taken self.new) (take n piece.now)) }
        ensures kept { UnlessTook result (Keeps (taken self.old) (taken self.new)) }
        ensures failed { OnFailed result (Rose (faults self.old) (faults self.new)) }
        ensures no_memory { OnNoMemory result (Rose (wants self.old) (wants self.new)) }
        ensures faults_never_fall { faults self.old ≤ faults self.new }
        ensures wants_never_fall { wants self.old ≤ wants self.new };
}
