ghost use Rattle.std.specs.Prelude.{◌≡◌, ◌+◌, ◌-◌, ◌<◌, ◌^◌, ◌↔◌, IsTrue, min};

use std::sync::{Condvar, Mutex, Wait};

/// Tells the members of a crew how many regions were moved, and wakes those who wait for the next one. The count stays at
/// its greatest value, 2^64 - 1.
#[derive(Drop)]
pub struct Board {
    moves: Mutex<u64>,
    moved: Condvar,
}

impl Board {
    /// A board on which nothing was counted. It takes no memory.
    pub fn new() -> Board {
        Board {
            moves: Mutex::new(0),
            moved: Condvar::new(),
        }
    }

    /// How many moves were counted.
    pub(crate) fn count<R: Wait>(&self, rt: &R) -> u64 {
        *self.moves.lock(rt)
    }

    /// Counts a move, and wakes all who wait.
    pub(crate) fn raise<R: Wait>(&self, rt: &R) {
        let mut moves = self.moves.lock(rt);
        *moves = one_more(*moves);
        drop(moves);
        self.moved.notify_all();
    }

    /// Waits as long as the count is the one that was read.
    pub(crate) fn wait<R: Wait>(&self, rt: &R, read: u64) {
        self.moved
            .wait_while(rt, self.moves.lock(rt), |moves| has_stayed(*moves, read));
    }
}

// One move more, up to the greatest value.
fn one_more(moves: u64) -> u64
    ensures { result ≡ min (moves + 1) (2 ^ 64 - 1) }
{
    moves.saturating_add(1)
}

// Whether no move was counted since the count was read. At its greatest value that can't be told.
fn has_stayed(moves: u64, read: u64) -> bool
    ensures { IsTrue result ↔ ((moves ≡ read) × (moves < 2 ^ 64 - 1)) }
{
    moves == read && moves < u64::MAX
}
