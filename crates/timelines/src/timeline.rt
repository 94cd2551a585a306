ghost use Rattle.std.specs.Prelude.{◌≡◌, ◌+◌, ◌<◌, ◌≤◌, ◌^◌, ℕ, length, slice_index_or};
ghost use Rattle.step_plan.specs.declared.change.Change.{Change};
ghost use Rattle.timelines.specs.Passing.{HasPassed};

use crate::now::Now;
use std::alloc::Global;
use std::marker::Model;
use step_plan::Change;

/// A value that changes at some steps, followed forward from step 0.
#[derive(Debug, Drop)]
pub struct Timeline<V> {
    start: V,
    changes: Vec<Change<V>>,
    // How many changes have come, what is in force by them, and the step of the next.
    come: usize,
    value: V,
    until: u64,
    step: u64,
}

impl<V> Model for Timeline<V> {
    ghost use Rattle.timelines.specs.Timelines.{TimelineValue};
    ghost use Rattle.timelines.specs.Passing.{HasCome};

    ghost Value = { TimelineValue V };

    ghost view = { λ line. record { start = line.start; changes = line.changes.items; step = line.step } };

    ghost invariant = { λ line. HasCome line.start line.changes.items line.come line.value line.until line.step };
}

impl<V: Copy> Timeline<V> {
    ghost use Rattle.std.specs.Prelude.{IsTrue};
    ghost use Rattle.step_plan.specs.Changes.{IsRising};
    ghost use Rattle.timelines.specs.Timelines.{IsSteady, value_at};

    /// The timeline of a value with these changes, at step 0.
    pub fn new(start: V, changes: Vec<Change<V>>) -> Timeline<V>
        requires { IsRising changes.items }
        ensures { result ≡ record { start = start; changes = changes.items; step = 0 } }
    {
        let (come, value, until) = pass(&changes, 0, start, 0);
        Timeline {
            start,
            changes,
            come,
            value,
            until,
            step: 0,
        }
    }

    /// The timeline of a value that never changes, at step 0. It takes no memory.
    pub fn constant(alloc: Global, value: V) -> Timeline<V>
        ensures value { (t : ℕ) → value_at result t ≡ value }
        ensures step { result.step ≡ 0 }
    {
        Timeline::new(value, Vec::new(alloc))
    }

    /// Whether the value never changes.
    pub fn is_constant(&self) -> bool
        ensures { IsTrue result → (s t : ℕ) → value_at self.now s ≡ value_at self.now t }
    {
        self.changes.is_empty()
    }

    /// The value at its step.
    pub fn now(&self) -> Now<V>
        ensures value { result.value ≡ value_at self.now self.now.step }
        ensures steady { IsSteady (value_at self.now) self.now.step result.until }
        ensures later { self.now.step + 1 < 2 ^ 64 → self.now.step < result.until }
    {
        Now {
            value: self.value,
            until: self.until,
        }
    }

    /// Follows it to step `t`. Where nothing changes by then it does next to nothing.
    pub fn move_to(&mut self, t: u64)
        requires { self.old.step ≤ t }
        ensures { self.new ≡ record self.old { step = t } }
    {
        if self.until <= t {
            (self.come, self.value, self.until) = pass(&self.changes, self.come, self.value, t);
        }
        self.step = t;
    }
}

// Passes the changes that are due at step `t`, from the one at `come` on: how many have come then, what is in force, and
// the step of the next.
fn pass<V: Copy>(changes: &[Change<V>], come: usize, value: V, t: u64) -> (usize, V, u64)
    requires there { come ≤ length changes.now }
    ensures passed { (start : V) → HasPassed start changes.now come value t → HasPassed start changes.now result.0 result.1 t }
    ensures within { result.0 ≤ length changes.now }
    ensures left { (c : Change V) → result.0 < length changes.now → t < (slice_index_or changes.now result.0 c).step }
    ensures until { (c : Change V) → result.0 < length changes.now → result.2 ≤ (slice_index_or changes.now result.0 c).step }
    ensures later { t + 1 < 2 ^ 64 → t < result.2 }
{
    let mut value = value;
    for k in come..changes.len() {
        let change = changes[k];
        if change.step > t {
            return (k, value, change.step);
        }
        value = change.value;
    }
    (changes.len(), value, u64::MAX)
}
