ghost use Rattle.std.specs.Prelude.{◌≡◌, ◌<◌, ◌≤◌, ◌^◌, ℕ, ◌&&◌, IfOk, count_by, eqb, length};
ghost use Rattle.network_file.specs.Connectors.{are_joined, leads_into, leads_out_of};
ghost use Rattle.cut_grow.specs.Least.{IsLeast};
ghost use Rattle.cut_grow.specs.Sides.{AreJoints, AreThere, IsSideTable, is_free, touches_at};

use crate::side::Side;
use network_file::Connector;
use no_memory::NoMemory;
use region_cut::three_cells;
use std::alloc::Global;

/// The number of the connector that leads out of each cell and of the one that leads into it; the number of all
/// connectors stands for none.
#[derive(Drop)]
pub(crate) struct Joints {
    out: Vec<u32>,
    into: Vec<u32>,
}

impl Joints {
    /// The joints of connectors of which at most one leads out of each cell, and at most one into it.
    pub(crate) fn of(
        alloc: Global,
        connectors: &[Connector],
        cells: u32,
    ) -> Result<Joints, NoMemory>
        requires few { length connectors.now < 2 ^ 32 }
        requires there { AreThere cells connectors.now }
        requires one_out { (i : ℕ) → count_by (leads_out_of i) connectors.now ≤ 1 }
        requires one_in { (i : ℕ) → count_by (leads_into i) connectors.now ≤ 1 }
        ensures { IfOk result (λ joints. AreJoints cells connectors.now joints.out.items joints.into.items) }
    {
        let out = by_cell(alloc, connectors, cells, Side::Upstream)?;
        let into = by_cell(alloc, connectors, cells, Side::Downstream)?;
        Ok(Joints { out, into })
    }

    /// The least cell not placed that shares a connector with a cell, or the number of cells where there is none.
    pub(crate) fn least_beside(&self, connectors: &[Connector], placed: &[bool], cell: u32) -> u32
        requires few { length placed.now < 2 ^ 32 }
        requires there { AreThere (length placed.now) connectors.now }
        requires joints { AreJoints (length placed.now) connectors.now self.now.out.items self.now.into.items }
        requires cell { cell < length placed.now }
        ensures { IsLeast (length placed.now) (λ i. is_free placed.now i && are_joined connectors.now cell i) result }
    {
        let out = least_of(connectors, placed, self.out[cell as usize]);
        let into = least_of(connectors, placed, self.into[cell as usize]);
        out.min(into)
    }
}

// For each cell the number of a connector that has it on that side, or the number of all connectors.
fn by_cell(
    alloc: Global,
    connectors: &[Connector],
    cells: u32,
    side: Side,
) -> Result<Vec<u32>, NoMemory>
    requires few { length connectors.now < 2 ^ 32 }
    requires there { AreThere cells connectors.now }
    ensures { IfOk result (λ table. IsSideTable side cells connectors.now (length connectors.now) table.items) }
{
    let none = connectors.len() as u32;
    let mut table = vec![in alloc; none; cells as usize]?;
    for k in 0..none {
        let [first, second] = side.cells(connectors[k as usize]);
        table[first as usize] = k;
        table[second as usize] = k;
    }
    Ok(table)
}

// The least cell of a connector that isn't placed, or the number of cells where there is none or no such connector.
fn least_of(connectors: &[Connector], placed: &[bool], k: u32) -> u32
    requires few { length placed.now < 2 ^ 32 }
    requires there { AreThere (length placed.now) connectors.now }
    ensures { IsLeast (length placed.now) (λ i. is_free placed.now i && touches_at connectors.now k i) result }
{
    if k as usize >= connectors.len() {
        return placed.len() as u32;
    }
    let [a, b, c] = three_cells(connectors[k as usize]);
    if_free(placed, a)
        .min(if_free(placed, b))
        .min(if_free(placed, c))
}

// A cell where it isn't placed, and else the number of cells.
fn if_free(placed: &[bool], cell: u32) -> u32
    requires few { length placed.now < 2 ^ 32 }
    requires there { cell < length placed.now }
    ensures { IsLeast (length placed.now) (λ i. is_free placed.now i && eqb i cell) result }
{
    if placed[cell as usize] {
        placed.len() as u32
    } else {
        cell
    }
}
