use crate::pause::wait_for;
use region_slots::{Freed, Observer, Taken, Watched, Watching};
use std::sync::atomic::{AtomicU64, Ordering};

// Whether one of two that wait for each other has come, and whether it has met the other, however often it comes.
#[derive(Drop)]
struct Party {
    here: AtomicU64,
    met: AtomicU64,
}

impl Party {
    fn new() -> Party {
        Party {
            here: AtomicU64::new(0),
            met: AtomicU64::new(0),
        }
    }

    fn comes(&self) {
        self.here.store(1, Ordering::SeqCst);
    }

    // Waits for a while for the other.
    fn waits_for(&self, other: &Party) {
        if wait_for(&other.here) {
            self.met.store(1, Ordering::SeqCst);
        }
    }

    fn has_met(&self) -> bool {
        self.met.load(Ordering::SeqCst) != 0
    }
}

// An observer at which the turn that holds region 0 at step 0 and the one that holds region 2 at step 1 wait for each other, so
// that one thread alone waits in vain.
#[derive(Drop)]
pub(crate) struct Meeting {
    first: Party,
    second: Party,
}

impl Meeting {
    pub(crate) fn new() -> Meeting {
        Meeting {
            first: Party::new(),
            second: Party::new(),
        }
    }

    // Whether each of the two has met the other.
    pub(crate) fn took_place(&self) -> bool {
        self.first.has_met() && self.second.has_met()
    }
}

impl Observer for Meeting {
    ghost use Rattle.std.specs.Prelude.{⊤};

    ghost told_held = { λ observer run region step. ⊤ };

    ghost told_freed = { λ observer run region step. ⊤ };

    ghost told_watching = { λ observer run seen. ⊤ };

    ghost told_watched = { λ observer run seen shot. ⊤ };

    fn held(&self, taken: Taken) {
        let (own, other) = match (taken.region(), taken.step()) {
            (0, 0) => (&self.first, &self.second),
            (2, 1) => (&self.second, &self.first),
            _ => return,
        };
        own.comes();
        own.waits_for(other);
    }

    fn freed(&self, freed: Freed) {}

    fn watching(&self, watching: Watching) {}

    fn watched(&self, watched: Watched) {}
}
