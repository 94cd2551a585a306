use crate::memory::NoMemory;

/// Why something was not made of what was given.
#[derive(Clone, Copy, Debug, PartialEq, Eq)]
pub enum Refused<F> {
    /// What was given has this fault, the first in the order in which they are looked for.
    Fault(F),
    /// The memory that it needs was refused; what was given may have a fault or none.
    NoMemory,
}

impl<F> From<NoMemory> for Refused<F> {
    ghost use Rattle.std.specs.Prelude.{◌≡◌};
    ghost use Rattle.no_memory.specs.declared.refused.Refused.TheVariants as refused;

    ghost from_gives = { λ _ answer. answer ≡ refused.NoMemory };

    fn from(_: NoMemory) -> Refused<F> {
        Refused::NoMemory
    }
}
