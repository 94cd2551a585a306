use crate::meeting::is_set_in_time;
use region_slots::{Freed, Observer, Taken, Watched, Watching};
use std::sync::atomic::{AtomicU64, Ordering};

// An observer past which three members of a crew take regions to step 2: the three with which each of them begins, a fourth,
// a gate, the exit that it leads to, and others, which no connector joins. Each member first moves a region that it begins
// with. Then one of them waits behind the first move of the fourth region, one before the first move of the exit, and the
// last one takes all others to step 2. It finds the gate a step past the exit then, and so sweeps in vain. Once it has looked
// the second moves the exit, and after that the first one the gate and the exit, without a sweep between.
#[derive(Drop)]
pub(crate) struct LastMoves {
    // How many regions there are but for the gate and the exit.
    others: u64,
    // How long the first move of the exit comes behind the look.
    delay: u64,
    // Whether the member that makes it waits behind it until the exit stands at step 2.
    waits: bool,
    begun: AtomicU64,
    all_begun: AtomicU64,
    behind_fourth: AtomicU64,
    before_exit: AtomicU64,
    others_ended: AtomicU64,
    looked: AtomicU64,
    exit_moved: AtomicU64,
    exit_ended: AtomicU64,
    missed: AtomicU64,
}

const FOURTH: u32 = 3;

const GATE: u32 = 4;

const EXIT: u32 = 5;

impl LastMoves {
    pub(crate) fn new(others: u64, delay: u64, waits: bool) -> LastMoves {
        LastMoves {
            others,
            delay,
            waits,
            begun: AtomicU64::new(0),
            all_begun: AtomicU64::new(0),
            behind_fourth: AtomicU64::new(0),
            before_exit: AtomicU64::new(0),
            others_ended: AtomicU64::new(0),
            looked: AtomicU64::new(0),
            exit_moved: AtomicU64::new(0),
            exit_ended: AtomicU64::new(0),
            missed: AtomicU64::new(0),
        }
    }

    // Whether nobody waited for another too long.
    pub(crate) fn took_place(&self) -> bool {
        self.exit_ended.load(Ordering::SeqCst) == 1 && self.missed.load(Ordering::SeqCst) == 0
    }

    // Waits for a while until the flag is set.
    fn wait_for(&self, flag: &AtomicU64) {
        if !is_set_in_time(flag) {
            self.missed.store(1, Ordering::SeqCst);
        }
    }

    // Where a member holds the region with which it begins.
    fn begin(&self) {
        if self.begun.fetch_add(1, Ordering::SeqCst) == 2 {
            self.all_begun.store(1, Ordering::SeqCst);
        }
        self.wait_for(&self.all_begun);
    }

    // Before the first move of the exit.
    fn hold_exit(&self) {
        self.before_exit.store(1, Ordering::SeqCst);
        self.wait_for(&self.looked);
        for _ in 0..self.delay {
            let _looked = self.looked.load(Ordering::SeqCst);
        }
    }

    // Where the gate is looked at that stands at step 1.
    fn look_at_gate(&self) {
        if self.others_ended.load(Ordering::SeqCst) == self.others {
            self.looked.store(1, Ordering::SeqCst);
        }
    }

    // Behind the first move of the exit.
    fn free_exit(&self) {
        self.exit_moved.store(1, Ordering::SeqCst);
        if self.waits {
            self.wait_for(&self.exit_ended);
        }
    }

    // Behind the first move of the fourth region.
    fn free_fourth(&self) {
        self.behind_fourth.store(1, Ordering::SeqCst);
        self.wait_for(&self.exit_moved);
    }

    // Behind the first move of the gate.
    fn free_gate(&self) {
        self.wait_for(&self.behind_fourth);
        self.wait_for(&self.before_exit);
    }
}

impl Observer for LastMoves {
    ghost use Rattle.std.specs.Prelude.{⊤};

    ghost told_held = { λ observer run region step. ⊤ };

    ghost told_freed = { λ observer run region step. ⊤ };

    ghost told_watching = { λ observer run seen. ⊤ };

    ghost told_watched = { λ observer run seen shot. ⊤ };

    fn held(&self, taken: Taken) {
        match (taken.region(), taken.step()) {
            (0..=2, 0) => self.begin(),
            (EXIT, 0) => self.hold_exit(),
            (GATE, 1) => self.look_at_gate(),
            _ => {}
        }
    }

    fn freed(&self, freed: Freed) {
        match (freed.region(), freed.step()) {
            (FOURTH, 1) => self.free_fourth(),
            (GATE, 1) => self.free_gate(),
            (EXIT, 1) => self.free_exit(),
            (EXIT, 2) => self.exit_ended.store(1, Ordering::SeqCst),
            (GATE, 2) => {}
            (_, 2) => {
                self.others_ended.fetch_add(1, Ordering::SeqCst);
            }
            _ => {}
        }
    }

    fn watching(&self, watching: Watching) {}

    fn watched(&self, watched: Watched) {}
}
