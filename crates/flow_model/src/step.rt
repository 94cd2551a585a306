ghost use Rattle.std.specs.Prelude.{◌≡◌, ℕ, ◌+◌, ◌<◌, ◌≤◌, length, slice_set};
ghost use Rattle.network_file.specs.Sound.{IsNetwork};
ghost use Rattle.network_file.specs.Connectors.{cells_of, downstream_of, upstream_of};
ghost use Rattle.network_file.specs.Numbered.{connector_at};
ghost use Rattle.flow_model.specs.Bounds.{AreInBounds, KeepsRooms};
ghost use Rattle.flow_model.specs.Moves.{CanEnter, CanLeave, row_less, row_more, with_connectors};
ghost use Rattle.flow_model.specs.State.{next_rows, row_at, state_at};

use crate::connector_flow::flow;
use crate::row::Row;
use network_file::{Connector, Net};

/// Writes the rows at step 0, in parts: each cell holds what it holds at first, and nothing is counted yet.
pub fn first_rows(net: &Net, rows: &mut [Row])
    requires one_each { length rows.old ≡ length net.now.cells }
    ensures state { rows.new ≡ state_at net.now 0 }

    // The rows at each step, from this one to the last, are in bounds, and no road ever holds more than its room.
    ensures bounds { (t : ℕ) → t ≤ net.now.steps → AreInBounds net.now t (state_at net.now t) }
    ensures rooms { (t : ℕ) → t ≤ net.now.steps → KeepsRooms net.now (state_at net.now t) }
{
    for i in 0..net.cells.len() {
        rows[i] = Row {
            n: net.cells[i].first,
            come: 0,
            gone: 0,
            wait: 0,
        };
    }
}

/// Takes the whole network through step `t`, counted from 0: writes the rows after it, by those before it
/// (Daganzo 1994 and 1995; docs/MODEL.md). What `new` held is not read.
pub fn plain_step(net: &Net, t: u64, old: &[Row], new: &mut [Row])
    requires one_each { length new.old ≡ length net.now.cells }
    requires in_time { t < net.now.steps }
    requires in_bounds { AreInBounds net.now t old.now }
    ensures rows { new.new ≡ next_rows net.now t old.now }
    ensures bounds { AreInBounds net.now (t + 1) new.new }
    ensures state { old.now ≡ state_at net.now t → new.new ≡ state_at net.now (t + 1) }
{
    begin(net, t, old, new);
    for k in 0..net.connectors.len() as u32 {
        carry(net, t, k, old, new);
    }
}

// The rows before any connector carried its flow.
fn begin(net: &Net, t: u64, old: &[Row], new: &mut [Row])
    requires one_each { length new.old ≡ length net.now.cells }
    requires in_time { t < net.now.steps }
    requires in_bounds { AreInBounds net.now t old.now }
    ensures { new.new ≡ next_rows (with_connectors net.now 0) t old.now }
{
    for i in 0..net.cells.len() {
        new[i] = old[i].begun(net, t, i as u32);
    }
}

// Connector `k` carries its flow, after those before it.
fn carry(net: &Net, t: u64, k: u32, old: &[Row], new: &mut [Row])
    requires has_connector { k < length net.now.connectors }
    requires in_time { t < net.now.steps }
    requires in_bounds { AreInBounds net.now t old.now }
    requires before { new.old ≡ next_rows (with_connectors net.now k) t old.now }
    ensures { new.new ≡ next_rows (with_connectors net.now (k + 1)) t old.now }
{
    match net.connectors[k as usize] {
        Connector::Link { up, down } => carry_link(net, t, k, [up, down], old, new),
        Connector::Merge { up1, up2, down, .. } => {
            carry_merge(net, t, k, [up1, up2, down], old, new);
        }
        Connector::Diverge {
            up,
            down1,
            down2,
            ..
        } => {
            carry_diverge(net, t, k, [up, down1, down2], old, new);
        }
    }
}

// Connector `k`, a link, carries its flow.
fn carry_link(net: &Net, t: u64, k: u32, cells: [u32; 2], old: &[Row], new: &mut [Row])
    requires sound { IsNetwork net.now }
    requires has_connector { k < length net.now.connectors }
    requires cells { cells_of (connector_at net.now.connectors k) ≡ cells }
    requires upstream { length (upstream_of (connector_at net.now.connectors k)) ≡ 1 }
    requires downstream { length (downstream_of (connector_at net.now.connectors k)) ≡ 1 }
    requires in_time { t < net.now.steps }
    requires in_bounds { AreInBounds net.now t old.now }
    requires before { new.old ≡ next_rows (with_connectors net.now k) t old.now }
    ensures { new.new ≡ next_rows (with_connectors net.now (k + 1)) t old.now }
{
    let [up, down] = cells;
    let carried = flow(net, t, k, [old[up as usize].n, old[down as usize].n, 0]);
    leave(new, up, carried.out1);
    enter(new, down, carried.in1);
}

// Connector `k`, a merge, carries its flow.
fn carry_merge(net: &Net, t: u64, k: u32, cells: [u32; 3], old: &[Row], new: &mut [Row])
    requires sound { IsNetwork net.now }
    requires has_connector { k < length net.now.connectors }
    requires cells { cells_of (connector_at net.now.connectors k) ≡ cells }
    requires upstream { length (upstream_of (connector_at net.now.connectors k)) ≡ 2 }
    requires downstream { length (downstream_of (connector_at net.now.connectors k)) ≡ 1 }
    requires in_time { t < net.now.steps }
    requires in_bounds { AreInBounds net.now t old.now }
    requires before { new.old ≡ next_rows (with_connectors net.now k) t old.now }
    ensures { new.new ≡ next_rows (with_connectors net.now (k + 1)) t old.now }
{
    let [up1, up2, down] = cells;
    let n = [
        old[up1 as usize].n,
        old[up2 as usize].n,
        old[down as usize].n,
    ];
    let carried = flow(net, t, k, n);
    leave(new, up1, carried.out1);
    leave(new, up2, carried.out2);
    enter(new, down, carried.in1);
}

// Connector `k`, a diverge, carries its flow.
fn carry_diverge(net: &Net, t: u64, k: u32, cells: [u32; 3], old: &[Row], new: &mut [Row])
    requires sound { IsNetwork net.now }
    requires has_connector { k < length net.now.connectors }
    requires cells { cells_of (connector_at net.now.connectors k) ≡ cells }
    requires upstream { length (upstream_of (connector_at net.now.connectors k)) ≡ 1 }
    requires downstream { length (downstream_of (connector_at net.now.connectors k)) ≡ 2 }
    requires in_time { t < net.now.steps }
    requires in_bounds { AreInBounds net.now t old.now }
    requires before { new.old ≡ next_rows (with_connectors net.now k) t old.now }
    ensures { new.new ≡ next_rows (with_connectors net.now (k + 1)) t old.now }
{
    let [up, down1, down2] = cells;
    let n = [
        old[up as usize].n,
        old[down1 as usize].n,
        old[down2 as usize].n,
    ];
    let carried = flow(net, t, k, n);
    leave(new, up, carried.out1);
    enter(new, down1, carried.in1);
    enter(new, down2, carried.in2);
}

// So many parts leave a cell.
fn leave(rows: &mut [Row], cell: u32, parts: u64)
    requires { CanLeave rows.old cell parts }
    ensures { rows.new ≡ slice_set rows.old cell (row_less (row_at rows.old cell) parts) }
{
    let row = &mut rows[cell as usize];
    row.leave(parts);
}

// So many parts enter a cell.
fn enter(rows: &mut [Row], cell: u32, parts: u64)
    requires { CanEnter rows.old cell parts }
    ensures { rows.new ≡ slice_set rows.old cell (row_more (row_at rows.old cell) parts) }
{
    let row = &mut rows[cell as usize];
    row.enter(parts);
}
