use region_slots::{Freed, Observer, Taken, Watched, Watching};
use std::sync::atomic::{AtomicU64, Ordering};

// An observer that notes what it is told, as the digits of two numbers: one digit for each region at which a turn began to work,
// and two for each that was freed, the region and its step. Of a region the digit is 1 for region 0.
#[derive(Drop)]
pub(crate) struct Notes {
    worked: AtomicU64,
    freed: AtomicU64,
}

impl Notes {
    pub(crate) fn new() -> Notes {
        Notes {
            worked: AtomicU64::new(0),
            freed: AtomicU64::new(0),
        }
    }

    // The regions at which turns began to work.
    pub(crate) fn all_worked(&self) -> u64 {
        self.worked.load(Ordering::SeqCst)
    }

    // The regions that were freed, with their steps.
    pub(crate) fn all_freed(&self) -> u64 {
        self.freed.load(Ordering::SeqCst)
    }
}

// Writes a digit behind those of a number.
fn note(number: &AtomicU64, digit: u64) {
    let before = number.load(Ordering::SeqCst);
    number.store(
        before.wrapping_mul(10).wrapping_add(digit),
        Ordering::SeqCst,
    );
}

impl Observer for Notes {
    ghost use Rattle.std.specs.Prelude.{⊤, ◌<◌, ◌≤◌};
    ghost use Rattle.region_cut.specs.Cuttings.{region_count};

    // The region is one of the run.
    ghost told_held = { λ observer run region step. region < region_count run.cut };

    // And the step is one of its network.
    ghost told_freed = { λ observer run region step. (region < region_count run.cut) × (step ≤ run.net.steps) };

    ghost told_watching = { λ observer run seen. ⊤ };

    ghost told_watched = { λ observer run seen shot. ⊤ };

    fn held(&self, taken: Taken) {
        note(&self.worked, u64::from(taken.region()) + 1);
    }

    fn freed(&self, freed: Freed) {
        note(&self.freed, u64::from(freed.region()) + 1);
        note(&self.freed, freed.step());
    }

    fn watching(&self, watching: Watching) {}

    fn watched(&self, watched: Watched) {}
}
