ghost use Rattle.std.specs.Prelude.{◌≡◌, ℕ, Bool, if◌then◌else◌, IfOk};
ghost use Rattle.step_plan.specs.Changes.{in_force, IsRising};

use crate::change::Change;
use crate::join::Join;
use no_memory::NoMemory;
use std::alloc::Global;

/// A record that speaks of the steps of a range, and gives the same in each of them.
pub(crate) trait Ranged: Copy {
    /// What it gives.
    type Given: Join;

    /// Whether it speaks of a step.
    ghost speaks: { Self → ℕ → Bool };

    /// What it gives in the steps of its range.
    ghost gives: { Self → Self.Given };

    /// Whether the record speaks of step `t`.
    fn holds_at(&self, t: u64) -> bool
        ensures { result ≡ speaks self.now t };

    /// The changes of what it gives.
    fn changes(&self, alloc: Global) -> Result<Vec<Change<Self::Given>>, NoMemory>
        ensures in_force { IfOk result (λ changes. (t : ℕ) → in_force Self.Given.none changes.items t ≡
            if speaks self.now t then gives self.now else Self.Given.none) }
        ensures rising { IfOk result (λ changes. IsRising changes.items) };
}
