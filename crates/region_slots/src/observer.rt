use crate::freed::Freed;
use crate::sight::{Watched, Watching};
use crate::taken::Taken;

/// Whom a run tells of its moments as they come. Each call returns, or ends the process. It may act on the run through means
/// of its own, and so can hold it at a chosen moment. Ghost facts say what the observer was told, and only its calls give them.
/// Each call uses up a token. A field, the state that the workers of a run share, alone makes tokens, each when its moment
/// comes.
pub trait Observer: Sync {
    ghost use Rattle.std.specs.Prelude.{ℕ, List};
    ghost use Rattle.region_slots.specs.CutRun.{CutRun};
    ghost use Rattle.region_slots.specs.declared.shot.Shot.{Shot};

    // It was told that a region of a run was taken, standing at a step.
    ghost told_held: { Self → CutRun → (region step : ℕ) → Type 0 };

    // It was told that a region of a run was freed, then standing at this step, one past that at which it was taken.
    ghost told_freed: { Self → CutRun → (region step : ℕ) → Type 0 };

    // It was told that a watcher of a run, who has seen the regions at these steps, is about to take its snapshot.
    ghost told_watching: { Self → CutRun → (seen : List ℕ) → Type 0 };

    // It was told what came of the snapshot of a watcher, who has then seen the regions at these steps.
    ghost told_watched: { Self → CutRun → (seen : List ℕ) → Shot → Type 0 };

    /// The region was taken, and is worked at.
    fn held(&self, taken: Taken)
        ensures { told_held self.now taken.entry.run taken.entry.region taken.entry.step };

    /// The region was freed a step on.
    fn freed(&self, freed: Freed)
        ensures { told_freed self.now freed.entry.run freed.entry.region freed.entry.step };

    /// A watcher is about to take its snapshot.
    fn watching(&self, watching: Watching)
        ensures { told_watching self.now watching.entry.run watching.entry.seen };

    /// A watcher is done with its snapshot.
    fn watched(&self, watched: Watched)
        ensures { told_watched self.now watched.entry.run watched.entry.seen watched.entry.shot };
}

/// The observer that lets every moment pass.
#[derive(Clone, Copy, Debug, PartialEq, Eq)]
pub struct NoObserver;

impl Observer for NoObserver {
    ghost use Rattle.std.specs.Prelude.{⊤};

    ghost told_held = { λ observer run region step. ⊤ };

    ghost told_freed = { λ observer run region step. ⊤ };

    ghost told_watching = { λ observer run seen. ⊤ };

    ghost told_watched = { λ observer run seen shot. ⊤ };

    fn held(&self, taken: Taken) {}

    fn freed(&self, freed: Freed) {}

    fn watching(&self, watching: Watching) {}

    fn watched(&self, watched: Watched) {}
}
