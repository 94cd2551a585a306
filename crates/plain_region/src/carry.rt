ghost use Rattle.std.specs.Prelude.{◌≡◌, ◌<◌, ℕ, length, map, slice_index};
ghost use Rattle.network_file.specs.Numbered.{connector_at};
ghost use Rattle.region_step.specs.Advance.{known};
ghost use Rattle.plain_region.specs.Carrying.{CanCarry, IsAmong, IsChangeOf, IsScene, carried_of, change_at, moved_by, with_entering, with_leaving};

use crate::cell_ref::CellRef;
use crate::change::Change;
use crate::occupancies::Occupancies;
use crate::region_connector::RegionConnector;
use flow_model::{Flow, flow};
use network_file::{Connector, Net};
use region_cut::Halo;

/// Writes what the connectors bring to each of the region's own cells in step `t`, and what they take from it.
pub(crate) fn carry_all(
    net: &Net,
    t: u64,
    connectors: &[RegionConnector],
    cells: &[u32],
    halo: &[Halo],
    occupancies: &Occupancies,
    changes: &mut [Change],
)
    requires scene { IsScene net.now t cells.now (map (λ halo. halo.cell) halo.now) connectors.now occupancies.now.rows.now occupancies.now.put.now }
    requires one_each { length changes.old ≡ length cells.now }
    ensures one_each { length changes.new ≡ length cells.now }
    ensures changes { (p : ℕ) → p < length cells.now → IsChangeOf net.now t
        (known cells.now (map (λ halo. halo.cell) halo.now) occupancies.now.rows.now occupancies.now.put.now)
        (slice_index cells.now p) (change_at changes.new p) }
{
    changes.fill(Change::NONE);
    for connector in connectors {
        carry(net, t, connector, occupancies, changes);
    }
}

// One connector carries its flow of step `t`.
fn carry(
    net: &Net,
    t: u64,
    connector: &RegionConnector,
    occupancies: &Occupancies,
    changes: &mut [Change],
)
    requires can { CanCarry net.now t connector.now occupancies.now.rows.now occupancies.now.put.now }
    requires one_each { length changes.old ≡ length occupancies.now.rows.now }
    ensures { changes.new ≡ moved_by (connector_at net.now.connectors connector.now.number) connector.now
        (carried_of net.now t connector.now occupancies.now.rows.now occupancies.now.put.now) changes.old }
{
    let carried = carried(net, t, connector, occupancies);
    let [a, b, c] = connector.cells;
    match net.connectors[connector.number as usize] {
        Connector::Link { .. } => {
            leave(changes, a, carried.out1);
            enter(changes, b, carried.in1);
        }
        Connector::Merge { .. } => {
            leave(changes, a, carried.out1);
            leave(changes, b, carried.out2);
            enter(changes, c, carried.in1);
        }
        Connector::Diverge { .. } => {
            leave(changes, a, carried.out1);
            enter(changes, b, carried.in1);
            enter(changes, c, carried.in2);
        }
    }
}

// What it carries.
fn carried(net: &Net, t: u64, connector: &RegionConnector, occupancies: &Occupancies) -> Flow
    requires { CanCarry net.now t connector.now occupancies.now.rows.now occupancies.now.put.now }
    ensures { result ≡ carried_of net.now t connector.now occupancies.now.rows.now occupancies.now.put.now }
{
    let [a, b, c] = connector.cells;
    let n = [
        occupancies.held(a),
        occupancies.held(b),
        occupancies.held(c),
    ];
    flow(net, t, connector.number, n)
}

// So many parts leave a cell, where it is one of the region's own.
fn leave(changes: &mut [Change], cell: CellRef, parts: u64)
    requires { IsAmong changes.old cell }
    ensures { changes.new ≡ with_leaving changes.old cell parts }
{
    if let CellRef::Own(p) = cell {
        changes[p as usize].leaves = parts;
    }
}

// So many parts enter it.
fn enter(changes: &mut [Change], cell: CellRef, parts: u64)
    requires { IsAmong changes.old cell }
    ensures { changes.new ≡ with_entering changes.old cell parts }
{
    if let CellRef::Own(p) = cell {
        changes[p as usize].enters = parts;
    }
}
