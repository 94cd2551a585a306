ghost use Rattle.std.specs.Prelude.{ℕ, ◌≤◌};
ghost use Rattle.std.specs.Io.KnownBytes.{Appends};
ghost use Rattle.ctm_ports.specs.Count.{Rose};
ghost use Rattle.ctm_ports.specs.Written.{OnAll, OnFailed, OnNoMemory, AppendsPrefix};

use crate::sink::{Sink, Wrote};

/// How the writing of a whole text ends.
#[derive(Clone, Copy, Debug, PartialEq, Eq)]
pub enum Written {
    /// The sink took the whole text.
    All,
    /// A write failed, and the rest of the text was not written.
    Failed,
    /// The sink found no memory, and the rest of the text was not written.
    NoMemory,
}

/// Writes a whole text, or stops at the first write that fails or finds no memory.
pub fn write_all<O: Sink>(out: &mut O, text: &[u8]) -> Written
    ensures all { OnAll result (Appends (O.taken out.old) (O.taken out.new) text.now) }
    ensures failed { OnFailed result (Rose (O.faults out.old) (O.faults out.new)) }
    ensures no_memory { OnNoMemory result (Rose (O.wants out.old) (O.wants out.new)) }

    // Whatever the answer.
    ensures prefix { AppendsPrefix (O.taken out.old) (O.taken out.new) text.now }
    ensures faults_never_fall { O.faults out.old ≤ O.faults out.new }
    ensures wants_never_fall { O.wants out.old ≤ O.wants out.new }
{
    let mut at = 0;
    while at < text.len() {
        match out.write(&text[at..]) {
            Wrote::Took(n) => at += n,
            Wrote::Failed => return Written::Failed,
            Wrote::NoMemory => return Written::NoMemory,
        }
    }
    Written::All
}
