ghost use Rattle.std.specs.Prelude.{◌≡◌, ◌<◌, ◌≤◌, ◌↔◌, ℕ, All, IfOk, IsTrue, length, slice_index};
ghost use Rattle.flow_model.specs.State.{state_at};
ghost use Rattle.region_cut.specs.Cuttings.{region_at, region_count};
ghost use Rattle.region_cut.specs.LawfulSteps.{AreLawful};
ghost use Rattle.region_step.specs.Starting.{IsCellInBounds};

use crate::bounds::{is_earlier_in_bounds, is_row_in_bounds};
use flow_model::{Row, first_rows};
use network_file::Net;
use no_memory::NoMemory;
use region_cut::Layout;
use std::alloc::Global;
use std::marker::Model;

/// Where the regions of a network start, each at a step of its own.
#[derive(Debug, Drop)]
pub struct Start {
    /// The step of each region.
    pub steps: Vec<u64>,
    /// The row of each cell at its region's step.
    pub rows: Vec<Row>,
    /// What each cell held one step before, in parts. Only that of border cells is used.
    pub earlier: Vec<u64>,
}

impl Model for Start {
    ghost use Rattle.region_step.specs.Start.{StartLists};

    ghost Value = { StartLists };

    ghost view = { λ start. record { steps = start.steps.items; rows = start.rows.items; earlier = start.earlier.items } };
}

impl Start {
    ghost use Rattle.region_step.specs.Start.{zero_start};
    ghost use Rattle.region_step.specs.Starting.{Fits, IsTrueStart};

    /// The start at step 0: each cell holds what it holds at first.
    pub fn zero(alloc: Global, layout: &Layout) -> Result<Start, NoMemory>
        ensures start { IfOk result (λ start. start ≡ zero_start layout.now.net layout.now.chart.cut) }
        ensures fits { IfOk result (λ start. Fits layout.now.net layout.now.chart.cut start) }
        ensures lawful { IfOk result (λ start. AreLawful layout.now.net layout.now.chart.cut start.steps) }
        ensures true_start { IfOk result (λ start. IsTrueStart layout.now.net layout.now.chart.cut start) }
    {
        let net = layout.net();
        let steps = vec![in alloc; 0; layout.regions() as usize]?;
        let earlier = vec![in alloc; 0; net.cells.len()]?;
        let rows = rows_at_first(alloc, net)?;
        Ok(Start {
            steps,
            rows,
            earlier,
        })
    }

    /// Whether regions can be opened from here: there is one step for each region, none past the last, and for each cell
    /// a row in bounds at its region's step and an earlier occupancy in bounds a step before, 0 before step 0. It takes
    /// no memory, and doesn't ask whether the steps are lawful.
    pub fn fits(&self, layout: &Layout) -> bool
        ensures { IsTrue result ↔ Fits layout.now.net layout.now.chart.cut self.now }
    {
        let net = layout.net();
        self.steps.len() == layout.regions() as usize
            && self.rows.len() == net.cells.len()
            && self.earlier.len() == net.cells.len()
            && are_in_time(&self.steps, net.steps)
            && are_in_bounds(self, layout)
    }
}

// The rows at step 0.
fn rows_at_first(alloc: Global, net: &Net) -> Result<Vec<Row>, NoMemory>
    ensures { IfOk result (λ rows. rows.items ≡ state_at net.now 0) }
{
    let mut rows = vec![in alloc; Row {
        n: 0,
        come: 0,
        gone: 0,
        wait: 0
    }; net.cells.len()]?;
    first_rows(net, &mut rows);
    Ok(rows)
}

// Whether no step is past the last.
fn are_in_time(steps: &[u64], last: u64) -> bool
    ensures { IsTrue result ↔ All (λ s. s ≤ last) steps.now }
{
    for step in steps {
        if *step > last {
            return false;
        }
    }
    true
}

// Whether the row of each cell is in bounds at its region's step, and what it held earlier a step before.
fn are_in_bounds(start: &Start, layout: &Layout) -> bool
    requires steps { length start.now.steps ≡ region_count layout.now.chart.cut }
    requires rows { length start.now.rows ≡ length layout.now.net.cells }
    requires earlier { length start.now.earlier ≡ length layout.now.net.cells }
    requires in_time { All (λ s. s ≤ layout.now.net.steps) start.now.steps }
    ensures { IsTrue result ↔ ((i : ℕ) → i < length layout.now.net.cells → IsCellInBounds layout.now.net layout.now.chart.cut start.now i) }
{
    for i in 0..layout.net().cells.len() as u32 {
        if !is_cell_in_bounds(start, layout, i) {
            return false;
        }
    }
    true
}

// Whether the row of cell `i` is in bounds at its region's step, and what it held earlier a step before.
fn is_cell_in_bounds(start: &Start, layout: &Layout, i: u32) -> bool
    requires there { i < length layout.now.net.cells }
    requires steps { length start.now.steps ≡ region_count layout.now.chart.cut }
    requires rows { length start.now.rows ≡ length layout.now.net.cells }
    requires earlier { length start.now.earlier ≡ length layout.now.net.cells }
    requires in_time { All (λ s. s ≤ layout.now.net.steps) start.now.steps }
    ensures { IsTrue result ↔ IsCellInBounds layout.now.net layout.now.chart.cut start.now i }
{
    let net = layout.net();
    let step = cell_step(&start.steps, layout, i);
    let row = start.rows[i as usize];
    let earlier = start.earlier[i as usize];
    is_row_in_bounds(net, step, i, &row) && is_earlier_in_bounds(net, step, i, earlier)
}

// The step of a cell's region.
fn cell_step(steps: &[u64], layout: &Layout, i: u32) -> u64
    requires there { i < length layout.now.chart.cut }
    requires one_each { length steps.now ≡ region_count layout.now.chart.cut }
    ensures step { result ≡ slice_index steps.now (region_at layout.now.chart.cut i) }
    ensures one { (last : ℕ) → All (λ s. s ≤ last) steps.now → result ≤ last }
{
    steps[layout.region_of(i) as usize]
}
