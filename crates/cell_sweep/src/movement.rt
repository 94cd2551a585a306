ghost use Rattle.std.specs.Prelude.{◌≡◌, ◌<◌, ◌≤◌, MatchOption, length};
ghost use Rattle.step_plan.specs.Speeds.{arriving};
ghost use Rattle.cell_sweep.specs.Moving.{MoveNothing, MoveNothingIn, MovesAt};
ghost use Rattle.cell_sweep.specs.CellStates.{AreSound, link_out};
ghost use Rattle.cell_sweep.specs.Speeds.{at_speeds, ratio_at};

use crate::cell_state::CellState;
use connector_flow::Ratio;

/// The place of a cell whose link to the next one carries something at these speeds, looked for from this place on and round,
/// or none where none does.
pub fn moving(states: &[CellState], speeds: &[Ratio], from: usize) -> Option<usize>
    requires sound { AreSound states.now }
    ensures { MatchOption result (MoveNothing states.now speeds.now) (MovesAt states.now speeds.now) }
{
    // Mostly what moved in the step before moves again.
    if from < states.len() && flow_from(states, speeds, from) != 0 {
        return Some(from);
    }
    let from = from.min(states.len());
    match moving_in(states, speeds, from, states.len()) {
        Some(p) => Some(p),
        None => moving_in(states, speeds, 0, from),
    }
}

// The first of them from one on, before another.
fn moving_in(states: &[CellState], speeds: &[Ratio], from: usize, to: usize) -> Option<usize>
    requires sound { AreSound states.now }
    requires within { to ≤ length states.now }
    ensures { MatchOption result (MoveNothingIn states.now speeds.now from to) (MovesAt states.now speeds.now) }
{
    for p in from..to {
        if flow_from(states, speeds, p) != 0 {
            return Some(p);
        }
    }
    None
}

// What the link out of the `p`-th cell carries, and nothing out of the last.
fn flow_from(states: &[CellState], speeds: &[Ratio], p: usize) -> u64
    requires sound { AreSound states.now }
    requires there { p < length states.now }
    ensures { result ≡ link_out (at_speeds states.now speeds.now) p }
{
    if p + 1 < states.len() {
        states[p].carried(&states[p + 1], reaching(states[p].n, speeds, p))
    } else {
        0
    }
}

/// Of `n` parts in the `p`-th cell those that reach its end.
#[inline(always)]
pub fn reaching(n: u64, speeds: &[Ratio], p: usize) -> u64
    ensures speed { result ≡ arriving (ratio_at speeds.now p) n }
    ensures held { result ≤ n }
{
    if p < speeds.len() {
        speeds[p].part(n)
    } else {
        n
    }
}
