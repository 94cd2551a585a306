ghost use Rattle.std.specs.Prelude.{◌≡◌, ◌+◌, ◌<◌, ◌≤◌, ◌↔◌, IsTrue, length};
ghost use Rattle.flow_model.specs.Bounds.{IsHeldInBounds, IsRowInBounds};
ghost use Rattle.region_step.specs.Fitting.{IsRowBalanced, IsComeInBounds};
ghost use Rattle.region_step.specs.Starting.{IsEarlierInBounds};

use fixed_flow::MOST_PARTS;
use flow_model::Row;
use network_file::{Kind, MOST_CAPACITY, Net};

/// Whether a row of cell `i` is in bounds at step `t`.
pub(crate) fn is_row_in_bounds(net: &Net, t: u64, i: u32, row: &Row) -> bool
    requires there { i < length net.now.cells }
    requires in_time { t ≤ net.now.steps }
    ensures { IsTrue result ↔ IsRowInBounds net.now t i row.now }
{
    let _steps = net.steps;
    is_held_in_bounds(net, t, i, row.n)
        && is_come_in_bounds(net, t, i, row)
        && is_balanced(net, i, row)
        && row.gone <= t * MOST_CAPACITY
        && row.wait <= t * MOST_PARTS
}

/// Whether cell `i` may have held `n` parts a step before step `step`; before step 0 there is nothing.
pub(crate) fn is_earlier_in_bounds(net: &Net, step: u64, i: u32, n: u64) -> bool
    requires there { i < length net.now.cells }
    requires in_time { step ≤ net.now.steps }
    ensures { IsTrue result ↔ IsEarlierInBounds net.now step i n }
{
    if step == 0 {
        n == 0
    } else {
        is_held_in_bounds(net, step - 1, i, n)
    }
}

// Whether cell `i` may hold `n` parts at step `t`.
fn is_held_in_bounds(net: &Net, t: u64, i: u32, n: u64) -> bool
    requires there { i < length net.now.cells }
    requires in_time { t ≤ net.now.steps }
    ensures { IsTrue result ↔ IsHeldInBounds net.now t i n }
{
    let steps = net.steps;
    let cell = &net.cells[i as usize];
    match cell.kind {
        Kind::Road { room, .. } => n <= room,
        Kind::Gate => u128::from(n) + net.plan.demand_from(i, t, steps) <= u128::from(MOST_PARTS),
        Kind::Exit => n <= t * MOST_CAPACITY,
    }
}

// Whether so much may have come into cell `i` by step `t`; an exit keeps all that came.
fn is_come_in_bounds(net: &Net, t: u64, i: u32, row: &Row) -> bool
    requires there { i < length net.now.cells }
    requires in_time { t ≤ net.now.steps }
    ensures { IsTrue result ↔ IsComeInBounds net.now t i row.now }
{
    let steps = net.steps;
    let cell = &net.cells[i as usize];
    match cell.kind {
        Kind::Road { .. } => row.come <= t * MOST_CAPACITY,
        Kind::Gate => {
            u128::from(row.come) + net.plan.demand_from(i, t, steps) <= u128::from(MOST_PARTS)
        }
        Kind::Exit => row.come == row.n && row.gone == 0 && row.wait == 0,
    }
}

// Whether cell `i`, if it is no exit, holds what it held at first and what came, less what went.
fn is_balanced(net: &Net, i: u32, row: &Row) -> bool
    requires there { i < length net.now.cells }
    ensures { IsTrue result ↔ IsRowBalanced net.now i row.now }
{
    let cell = &net.cells[i as usize];
    matches!(cell.kind, Kind::Exit)
        || u128::from(row.n) + u128::from(row.gone) == u128::from(cell.first) + u128::from(row.come)
}
