use region_slots::{Freed, Observer, Taken, Watched, Watching};
use std::sync::atomic::{AtomicU64, Ordering};

// An observer that notes which of four regions was held and freed at which of 64 steps, and how often one was freed.
#[derive(Drop)]
pub(crate) struct Notes {
    // For each region a bit for each step at which it was held.
    held: [AtomicU64; 4],
    // And for each at which it was freed.
    freed: [AtomicU64; 4],
    frees: AtomicU64,
}

impl Notes {
    pub(crate) fn new() -> Notes {
        Notes {
            held: none(),
            freed: none(),
            frees: AtomicU64::new(0),
        }
    }

    // The steps at which each region was held, a bit for each step.
    pub(crate) fn held_steps(&self) -> [u64; 4] {
        steps(&self.held)
    }

    // The steps at which each was freed.
    pub(crate) fn freed_steps(&self) -> [u64; 4] {
        steps(&self.freed)
    }

    // How often one was freed.
    pub(crate) fn frees(&self) -> u64 {
        self.frees.load(Ordering::SeqCst)
    }
}

// No step of any region.
fn none() -> [AtomicU64; 4] {
    [
        AtomicU64::new(0),
        AtomicU64::new(0),
        AtomicU64::new(0),
        AtomicU64::new(0),
    ]
}

// The steps that are noted of each region.
fn steps(noted: &[AtomicU64; 4]) -> [u64; 4] {
    let [first, second, third, fourth] = noted;
    [
        first.load(Ordering::SeqCst),
        second.load(Ordering::SeqCst),
        third.load(Ordering::SeqCst),
        fourth.load(Ordering::SeqCst),
    ]
}

// Notes a step of a region.
fn note(noted: &[AtomicU64; 4], region: u32, step: u64) {
    if region < 4 && step < 64 {
        noted[region as usize].fetch_or(1 << step, Ordering::SeqCst);
    }
}

impl Observer for Notes {
    ghost use Rattle.std.specs.Prelude.{⊤};

    ghost told_held = { λ observer run region step. ⊤ };

    ghost told_freed = { λ observer run region step. ⊤ };

    ghost told_watching = { λ observer run seen. ⊤ };

    ghost told_watched = { λ observer run seen shot. ⊤ };

    fn held(&self, taken: Taken) {
        note(&self.held, taken.region(), taken.step());
    }

    fn freed(&self, freed: Freed) {
        note(&self.freed, freed.region(), freed.step());
        self.frees.fetch_add(1, Ordering::SeqCst);
    }

    fn watching(&self, watching: Watching) {}

    fn watched(&self, watched: Watched) {}
}

// An observer at which the worker that holds region 0 at step 0 and the one that holds region 2 at step 1 wait for each other, so
// that one worker alone waits in vain. It notes which region was held at which step.
#[derive(Drop)]
pub(crate) struct Meeting {
    first: AtomicU64,
    second: AtomicU64,
    first_met: AtomicU64,
    second_met: AtomicU64,
    pub(crate) notes: Notes,
}

impl Meeting {
    pub(crate) fn new() -> Meeting {
        Meeting {
            first: AtomicU64::new(0),
            second: AtomicU64::new(0),
            first_met: AtomicU64::new(0),
            second_met: AtomicU64::new(0),
            notes: Notes::new(),
        }
    }

    // How many of the two have met the other.
    pub(crate) fn met(&self) -> u64 {
        let first = self.first_met.load(Ordering::SeqCst);
        first.wrapping_add(self.second_met.load(Ordering::SeqCst))
    }
}

// Comes to the meeting, and waits for the other for a while.
fn meet(own: &AtomicU64, other: &AtomicU64, met: &AtomicU64) {
    own.store(1, Ordering::SeqCst);
    if is_set_in_time(other) {
        met.store(1, Ordering::SeqCst);
    }
}

// Whether the flag is set within a while.
fn is_set_in_time(flag: &AtomicU64) -> bool {
    for _ in 0..1_000_000_000 {
        if flag.load(Ordering::SeqCst) != 0 {
            return true;
        }
    }
    false
}

impl Observer for Meeting {
    ghost use Rattle.std.specs.Prelude.{⊤};

    ghost told_held = { λ observer run region step. ⊤ };

    ghost told_freed = { λ observer run region step. ⊤ };

    ghost told_watching = { λ observer run seen. ⊤ };

    ghost told_watched = { λ observer run seen shot. ⊤ };

    fn held(&self, taken: Taken) {
        let (region, step) = (taken.region(), taken.step());
        self.notes.held(taken);
        match (region, step) {
            (0, 0) => meet(&self.first, &self.second, &self.first_met),
            (2, 1) => meet(&self.second, &self.first, &self.second_met),
            _ => {}
        }
    }

    fn freed(&self, freed: Freed) {
        self.notes.freed(freed);
    }

    fn watching(&self, watching: Watching) {}

    fn watched(&self, watched: Watched) {}
}

// An observer at which the watcher waits until region 0 was taken to step 1, and the worker who took it until the watcher has
// shot, so that one thread alone waits in vain.
#[derive(Drop)]
pub(crate) struct Glance {
    moved: AtomicU64,
    shown: AtomicU64,
    pub(crate) seen: AtomicU64,
}

impl Glance {
    pub(crate) fn new() -> Glance {
        Glance {
            moved: AtomicU64::new(0),
            shown: AtomicU64::new(0),
            seen: AtomicU64::new(0),
        }
    }

    // Waits for a while until the flag is set, and counts whether it was.
    fn wait_for(&self, flag: &AtomicU64) {
        if is_set_in_time(flag) {
            self.seen.fetch_add(1, Ordering::SeqCst);
        }
    }
}

impl Observer for Glance {
    ghost use Rattle.std.specs.Prelude.{⊤};

    ghost told_held = { λ observer run region step. ⊤ };

    ghost told_freed = { λ observer run region step. ⊤ };

    ghost told_watching = { λ observer run seen. ⊤ };

    ghost told_watched = { λ observer run seen shot. ⊤ };

    fn held(&self, taken: Taken) {}

    fn freed(&self, freed: Freed) {
        if freed.region() == 0 && freed.step() == 1 {
            self.moved.store(1, Ordering::SeqCst);
            self.wait_for(&self.shown);
        }
    }

    fn watching(&self, watching: Watching) {
        self.wait_for(&self.moved);
    }

    fn watched(&self, watched: Watched) {
        self.shown.store(1, Ordering::SeqCst);
    }
}
