ghost use Rattle.std.specs.Prelude.{◌≡◌, ◌≢◌, false, ◌+◌, ◌*◌, ◌<◌, ◌≤◌, ◌^◌, ℕ, List, length};
ghost use Rattle.step_plan.specs.Speeds.{arriving};
ghost use Rattle.cell_sweep.specs.CellStates.{AreSound, carried};
ghost use Rattle.cell_sweep.specs.Speeds.{CanSweep, slowed_state};
ghost use Rattle.cell_sweep.specs.Sweeping.{AreFew, IsSweptTo};
ghost use Rattle.cell_sweep.specs.declared.cell_state.CellState.{CellState as StateValue};

use crate::cell_state::CellState;
use crate::speed_zone::SpeedZone;
use crate::sweep_free::sweep_fours;
use connector_flow::Ratio;

/// Takes the states before the last through a step, and gives what enters that. Speeds are asked for in these zones and behind
/// the last whole four.
#[inline(always)]
pub(crate) fn sweep_zones(
    states: &mut [CellState],
    speeds: &[Ratio],
    zones: &[SpeedZone],
    before: &mut [u64],
    last: usize,
) -> u64
    requires sound { AreSound states.old }
    requires within { last + 1 ≡ length states.old }
    requires one_each { length before.old ≡ length states.old }
    requires known { length states.old ≤ length speeds.now }
    requires can { CanSweep states.old speeds.now zones.now }
    ensures { IsSweptTo states.old speeds.now last states.new before.new result }
{
    let fours = last / 4;
    let mut flow = 0;
    let mut m = 0;
    for zone in zones {
        flow = sweep_fours(states, before, m, zone.from, flow);
        flow = sweep_zone(states, speeds, before, zone, flow);
        m = zone.to;
    }
    flow = sweep_fours(states, before, m, fours, flow);
    for p in 4 * fours..last {
        flow = slowed_one(states, speeds, before, p, false, flow);
    }
    flow
}

// Takes the fours of a zone. Each of the two loops is made for itself: where all cells are slow none is asked.
#[inline(always)]
fn sweep_zone(
    states: &mut [CellState],
    speeds: &[Ratio],
    before: &mut [u64],
    zone: &SpeedZone,
    enters: u64,
) -> u64
    requires forward { zone.now.from ≤ zone.now.to }
    requires there { 4 * zone.now.to < length states.old }
    requires known { length states.old ≤ length speeds.now }
    requires one_each { length before.old ≡ length states.old }
    requires swept { (first : List StateValue) × IsSweptTo first speeds.now (4 * zone.now.from) states.old before.old enters × AreFew first speeds.now zone.now.all_slow (4 * zone.now.from) (4 * zone.now.to) }
    ensures { (first : List StateValue) → IsSweptTo first speeds.now (4 * zone.now.from) states.old before.old enters →
        IsSweptTo first speeds.now (4 * zone.now.to) states.new before.new result }
{
    if zone.all_slow {
        slowed_fours(states, speeds, before, zone.from, zone.to, true, enters)
    } else {
        slowed_fours(states, speeds, before, zone.from, zone.to, false, enters)
    }
}

// Takes the fours from one up to another, of zones that are all slow or of others.
#[inline(always)]
fn slowed_fours(
    states: &mut [CellState],
    speeds: &[Ratio],
    before: &mut [u64],
    from: usize,
    to: usize,
    all_slow: bool,
    enters: u64,
) -> u64
    requires forward { from ≤ to }
    requires there { 4 * to < length states.old }
    requires known { length states.old ≤ length speeds.now }
    requires one_each { length before.old ≡ length states.old }
    requires swept { (first : List StateValue) × IsSweptTo first speeds.now (4 * from) states.old before.old enters × AreFew first speeds.now all_slow (4 * from) (4 * to) }
    ensures { (first : List StateValue) → IsSweptTo first speeds.now (4 * from) states.old before.old enters →
        IsSweptTo first speeds.now (4 * to) states.new before.new result }
{
    let mut flow = enters;
    for m in from..to {
        flow = slowed_four(states, speeds, before, 4 * m, all_slow, flow);
    }
    flow
}

// Takes four states.
#[inline(always)]
fn slowed_four(
    states: &mut [CellState],
    speeds: &[Ratio],
    before: &mut [u64],
    p: usize,
    all_slow: bool,
    enters: u64,
) -> u64
    requires there { p + 4 < length states.old }
    requires known { length states.old ≤ length speeds.now }
    requires one_each { length before.old ≡ length states.old }
    requires swept { (first : List StateValue) × IsSweptTo first speeds.now p states.old before.old enters × AreFew first speeds.now all_slow p (p + 4) }
    ensures { (first : List StateValue) → IsSweptTo first speeds.now p states.old before.old enters →
        IsSweptTo first speeds.now (p + 4) states.new before.new result }
{
    let second = slowed_one(states, speeds, before, p, all_slow, enters);
    let third = slowed_one(states, speeds, before, p + 1, all_slow, second);
    let fourth = slowed_one(states, speeds, before, p + 2, all_slow, third);
    slowed_one(states, speeds, before, p + 3, all_slow, fourth)
}

// Takes the `p`-th state, whose cell so much enters, and gives what leaves it for the next one.
#[inline(always)]
fn slowed_one(
    states: &mut [CellState],
    speeds: &[Ratio],
    before: &mut [u64],
    p: usize,
    all_slow: bool,
    enters: u64,
) -> u64
    requires there { p + 1 < length states.old }
    requires known { length states.old ≤ length speeds.now }
    requires one_each { length before.old ≡ length states.old }
    requires swept { (first : List StateValue) × IsSweptTo first speeds.now p states.old before.old enters × AreFew first speeds.now all_slow p (p + 1) }
    ensures { (first : List StateValue) → IsSweptTo first speeds.now p states.old before.old enters →
        IsSweptTo first speeds.now (p + 1) states.new before.new result }
{
    let leaves = carried_slowed(&states[p], &states[p + 1], speeds[p], all_slow);
    let held = states[p].n;
    states[p].step(enters, leaves);
    before[p] = held;
    leaves
}

// What the link out of a cell carries at this speed.
#[inline(always)]
fn carried_slowed(state: &CellState, next: &CellState, speed: Ratio, all_slow: bool) -> u64
    requires few { (all_slow ≡ false → speed ≢ (1, 1)) → state.now.n < 2 ^ 52 }
    requires fits { next.now.n ≤ next.now.space.storage }
    ensures flow { result ≡ carried (slowed_state state.now speed) next.now }
    ensures held { result ≤ state.now.n }
    ensures fits { next.now.n + result < 2 ^ 64 }
{
    state.carried(next, reaching(state.n, speed, all_slow))
}

// Of `n` parts in a cell those that reach its end at this speed. At 1/1 there is no product, unless the cell is known to be slow.
#[inline(always)]
fn reaching(n: u64, speed: Ratio, all_slow: bool) -> u64
    requires few { (all_slow ≡ false → speed ≢ (1, 1)) → n < 2 ^ 52 }
    ensures speed { result ≡ arriving speed n }
    ensures held { result ≤ n }
{
    if !all_slow && speed.is_one() {
        n
    } else {
        speed.part_of_few(n)
    }
}
