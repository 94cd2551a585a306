use region_slots::{Freed, Observer, Taken, Watched, Watching};
use std::sync::atomic::{AtomicU64, Ordering};

// An observer that notes which of 64 regions were held, and whether another one was.
#[derive(Drop)]
pub(crate) struct Regions {
    // A bit for each of the 64.
    noted: AtomicU64,
    others: AtomicU64,
}

impl Regions {
    pub(crate) fn none() -> Regions {
        Regions {
            noted: AtomicU64::new(0),
            others: AtomicU64::new(0),
        }
    }

    // The regions that were held, a bit for each, where no other was than the 64.
    pub(crate) fn noted(&self) -> Option<u64> {
        match self.others.load(Ordering::SeqCst) {
            0 => Some(self.noted.load(Ordering::SeqCst)),
            _ => None,
        }
    }
}

impl Observer for Regions {
    ghost use Rattle.std.specs.Prelude.{⊤, ◌<◌};
    ghost use Rattle.region_cut.specs.Cuttings.{region_count};

    // The region is one of the run.
    ghost told_held = { λ observer run region step. region < region_count run.cut };

    ghost told_freed = { λ observer run region step. ⊤ };

    ghost told_watching = { λ observer run seen. ⊤ };

    ghost told_watched = { λ observer run seen shot. ⊤ };

    fn held(&self, taken: Taken) {
        let region = taken.region();
        if region < 64 {
            self.noted.fetch_or(1 << region, Ordering::SeqCst);
        } else {
            self.others.store(1, Ordering::SeqCst);
        }
    }

    fn freed(&self, freed: Freed) {}

    fn watching(&self, watching: Watching) {}

    fn watched(&self, watched: Watched) {}
}
