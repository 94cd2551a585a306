ghost use Rattle.std.specs.Prelude.{◌≡◌, ◌+◌, ◌*◌, ◌<◌, ◌≤◌, ◌^◌, ℕ, [], List, length};
ghost use Rattle.cell_sweep.specs.CellStates.{AreSound, carried, cell_state_at};
ghost use Rattle.cell_sweep.specs.Speeds.{ratio_at};
ghost use Rattle.cell_sweep.specs.Sweeping.{IsFree, IsSweptTo};
ghost use Rattle.cell_sweep.specs.declared.cell_state.CellState.{CellState as StateValue};

use crate::cell_state::CellState;

/// Takes the states before the last through a step where all cells have their roads' own speeds, and gives what enters that.
#[inline(always)]
pub(crate) fn sweep_free(states: &mut [CellState], before: &mut [u64], last: usize) -> u64
    requires sound { AreSound states.old }
    requires there { last < length states.old }
    requires one_each { length before.old ≡ length states.old }
    ensures { IsSweptTo states.old [] last states.new before.new result }
{
    let fours = last / 4;
    let mut flow = sweep_fours(states, before, 0, fours, 0);
    for p in 4 * fours..last {
        flow = sweep_one(states, before, p, flow);
    }
    flow
}

/// Takes the fours from one up to another, whose cells have their roads' own speeds.
#[inline(always)]
pub(crate) fn sweep_fours(
    states: &mut [CellState],
    before: &mut [u64],
    from: usize,
    to: usize,
    enters: u64,
) -> u64
    requires forward { from ≤ to }
    requires there { 4 * to < length states.old }
    requires one_each { length before.old ≡ length states.old }
    requires swept { (first : List StateValue) × (speeds : List (ℕ × ℕ)) × IsSweptTo first speeds (4 * from) states.old before.old enters × IsFree speeds (4 * from) (4 * to) }
    ensures { (first : List StateValue) (speeds : List (ℕ × ℕ)) → IsSweptTo first speeds (4 * from) states.old before.old enters →
        IsFree speeds (4 * from) (4 * to) → IsSweptTo first speeds (4 * to) states.new before.new result }
{
    let mut flow = enters;
    for m in from..to {
        flow = sweep_four(states, before, 4 * m, flow);
    }
    flow
}

// Takes four states: a loop over single ones takes some instructions more for each.
#[inline(always)]
fn sweep_four(states: &mut [CellState], before: &mut [u64], p: usize, enters: u64) -> u64
    requires there { p + 4 < length states.old }
    requires one_each { length before.old ≡ length states.old }
    requires swept { (first : List StateValue) × (speeds : List (ℕ × ℕ)) × IsSweptTo first speeds p states.old before.old enters × IsFree speeds p (p + 4) }
    ensures { (first : List StateValue) (speeds : List (ℕ × ℕ)) → IsSweptTo first speeds p states.old before.old enters → IsFree speeds p (p + 4) →
        IsSweptTo first speeds (p + 4) states.new before.new result }
{
    let second = sweep_one(states, before, p, enters);
    let third = sweep_one(states, before, p + 1, second);
    let fourth = sweep_one(states, before, p + 2, third);
    sweep_one(states, before, p + 3, fourth)
}

// Takes the `p`-th state, whose cell so much enters, and gives what leaves it for the next one.
#[inline(always)]
fn sweep_one(states: &mut [CellState], before: &mut [u64], p: usize, enters: u64) -> u64
    requires there { p + 1 < length states.old }
    requires one_each { length before.old ≡ length states.old }
    requires swept { (first : List StateValue) × (speeds : List (ℕ × ℕ)) × IsSweptTo first speeds p states.old before.old enters }
    ensures { (first : List StateValue) (speeds : List (ℕ × ℕ)) → IsSweptTo first speeds p states.old before.old enters → ratio_at speeds p ≡ (1, 1) →
        IsSweptTo first speeds (p + 1) states.new before.new result }
{
    let leaves = carried_from(states, p);
    let held = states[p].n;
    states[p].step(enters, leaves);
    before[p] = held;
    leaves
}

// What the link out of the `p`-th cell carries.
#[inline(always)]
fn carried_from(states: &[CellState], p: usize) -> u64
    requires there { p + 1 < length states.now }
    requires fits { (cell_state_at states.now (p + 1)).n ≤ (cell_state_at states.now (p + 1)).space.storage }
    ensures flow { result ≡ carried (cell_state_at states.now p) (cell_state_at states.now (p + 1)) }
    ensures held { result ≤ (cell_state_at states.now p).n }
    ensures fits { (cell_state_at states.now (p + 1)).n + result < 2 ^ 64 }
{
    states[p].carried(&states[p + 1], states[p].n)
}
