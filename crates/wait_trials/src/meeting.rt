use region_slots::{Freed, Observer, Taken, Watched, Watching};
use std::sync::atomic::{AtomicU64, Ordering};

// An observer at which the worker that holds region 0 at step 0 and the one that holds region 2 at step 1 wait for each other for
// a while, so that one worker alone waits in vain. It notes which of four regions was held at which of 64 steps.
#[derive(Drop)]
pub(crate) struct Meeting {
    first: AtomicU64,
    second: AtomicU64,
    met: [AtomicU64; 2],
    // For each region a bit for each step, set by whoever holds it.
    noted: [AtomicU64; 4],
}

impl Meeting {
    pub(crate) fn new() -> Meeting {
        Meeting {
            first: AtomicU64::new(0),
            second: AtomicU64::new(0),
            met: [AtomicU64::new(0), AtomicU64::new(0)],
            noted: [
                AtomicU64::new(0),
                AtomicU64::new(0),
                AtomicU64::new(0),
                AtomicU64::new(0),
            ],
        }
    }

    // Whether each of the two has met the other.
    pub(crate) fn took_place(&self) -> bool {
        self.met.iter().all(|met| met.load(Ordering::SeqCst) == 1)
    }

    // Whether each of the regions was held at each of these steps, of which each has a bit, and at no other.
    pub(crate) fn is_complete(&self, steps: u64) -> bool {
        self.noted
            .iter()
            .all(|noted| noted.load(Ordering::SeqCst) == steps)
    }
}

// Whether the flag is set within a while.
pub(crate) fn is_set_in_time(flag: &AtomicU64) -> bool {
    for _ in 0..1_000_000_000 {
        if flag.load(Ordering::SeqCst) != 0 {
            return true;
        }
    }
    false
}

// Comes to the meeting, and waits for the other for a while.
fn meet(own: &AtomicU64, other: &AtomicU64, met: &AtomicU64) {
    own.store(1, Ordering::SeqCst);
    if is_set_in_time(other) {
        met.store(1, Ordering::SeqCst);
    }
}

impl Observer for Meeting {
    ghost use Rattle.std.specs.Prelude.{⊤};

    ghost told_held = { λ observer run region step. ⊤ };

    ghost told_freed = { λ observer run region step. ⊤ };

    ghost told_watching = { λ observer run seen. ⊤ };

    ghost told_watched = { λ observer run seen shot. ⊤ };

    fn held(&self, taken: Taken) {
        let (region, step) = (taken.region(), taken.step());
        if region < 4 && step < 64 {
            let noted = &self.noted[region as usize];
            noted.store(noted.load(Ordering::SeqCst) | 1 << step, Ordering::SeqCst);
        }
        match (region, step) {
            (0, 0) => meet(&self.first, &self.second, &self.met[0]),
            (2, 1) => meet(&self.second, &self.first, &self.met[1]),
            _ => {}
        }
    }

    fn freed(&self, freed: Freed) {}

    fn watching(&self, watching: Watching) {}

    fn watched(&self, watched: Watched) {}
}
