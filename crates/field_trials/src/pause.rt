use crate::notes::Notes;
use region_slots::{Freed, Observer, Taken, Watched, Watching};
use std::sync::atomic::{AtomicU64, Ordering};

// An observer at which a turn that holds a region waits for a while until another turn or a shot was tried. It notes what it is
// told.
#[derive(Drop)]
pub(crate) struct Pause {
    region: u32,
    held: AtomicU64,
    tried: AtomicU64,
    pub(crate) notes: Notes,
}

impl Pause {
    pub(crate) fn new(region: u32) -> Pause {
        Pause {
            region,
            held: AtomicU64::new(0),
            tried: AtomicU64::new(0),
            notes: Notes::new(),
        }
    }

    // Waits until a turn holds the region.
    pub(crate) fn wait_for_turn(&self) {
        wait_for(&self.held);
    }

    // Lets that turn go on.
    pub(crate) fn let_go(&self) {
        self.tried.store(1, Ordering::SeqCst);
    }
}

// Waits for a while until the flag is set, and gives whether it was.
pub(crate) fn wait_for(flag: &AtomicU64) -> bool {
    for _ in 0..1_000_000_000 {
        if flag.load(Ordering::SeqCst) != 0 {
            return true;
        }
    }
    false
}

impl Observer for Pause {
    ghost use Rattle.std.specs.Prelude.{⊤};

    ghost told_held = { λ observer run region step. ⊤ };

    ghost told_freed = { λ observer run region step. ⊤ };

    ghost told_watching = { λ observer run seen. ⊤ };

    ghost told_watched = { λ observer run seen shot. ⊤ };

    fn held(&self, taken: Taken) {
        let region = taken.region();
        self.notes.held(taken);
        if region == self.region {
            self.held.store(1, Ordering::SeqCst);
            wait_for(&self.tried);
        }
    }

    fn freed(&self, freed: Freed) {
        self.notes.freed(freed);
    }

    fn watching(&self, watching: Watching) {}

    fn watched(&self, watched: Watched) {}
}
