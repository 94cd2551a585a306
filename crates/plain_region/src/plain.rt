ghost use Rattle.std.specs.Prelude.{◌≡◌, ◌<◌, ℕ, IfOk, None, OnErr, OnOk, Some, length, replicate, slice_index, slice_set};
ghost use Rattle.network_file.specs.Network.{Network};
ghost use Rattle.flow_model.specs.State.{occupancy, row_at};
ghost use Rattle.region_cut.specs.Chart.{ChartLists, list_at};
ghost use Rattle.region_cut.specs.Cuttings.{region_count};

use crate::cell_rows::CellRows;
use crate::notes::{make_room, note_step};
use crate::opening::first_notes;
use crate::wiring::Wiring;
use flow_model::Row;
use no_memory::NoMemory;
use region_body::nothing_put;
use region_cut::Layout;
use region_step::{Note, Start, is_recorded};
use std::alloc::Global;
use std::marker::Model;

/// A region of a layout, with the rows of its cells at its step, which the plain program of the definition takes
/// through its steps.
///
/// It is opened with a layout and a start, and used with that layout alone. Before each step its halo is told what the cells
/// around it hold as that step begins.
#[derive(Debug, Drop)]
pub struct PlainRegion {
    number: u32,
    started: u64,
    every: u64,
    step: u64,
    wiring: Wiring,
    cells: CellRows,
    put: Vec<Option<u64>>,
    trail: Vec<Note>,
}

impl Model for PlainRegion {
    ghost use Rattle.plain_region.specs.Plain.{PlainValue};

    ghost Value = { PlainValue };

    ghost view = { λ region. record {
      state = record {
        number = region.number;
        started = region.started;
        every = region.every;
        step = region.step;
        rows = region.cells.rows;
        before = region.cells.before;
        trail = region.trail.items;
        put = region.put.items;
      };
      body = record { connectors = region.wiring.connectors.items; border = region.wiring.border.items };
    } };
}

impl PlainRegion {
    ghost use Rattle.region_step.specs.Advance.{HasHaloPut, HasRowsInBounds, advanced};
    ghost use Rattle.region_step.specs.Laws.{grid_state};
    ghost use Rattle.region_step.specs.Starting.{Fits};
    ghost use Rattle.plain_region.specs.Opened.{IsIn, IsOf};

    /// Region `r` at the step at which it starts. It is recorded at each step that `every` divides and at the last one,
    /// never where `every` is 0.
    pub fn open(
        alloc: Global,
        layout: &Layout,
        start: &Start,
        r: u32,
        every: u64,
    ) -> Result<PlainRegion, NoMemory>
        requires fits { Fits layout.now.net layout.now.chart.cut start.now }
        requires there { r < region_count layout.now.chart.cut }
        ensures opened { IfOk result (λ region. IsIn layout.now.net layout.now.chart region) }
        ensures state { IfOk result (λ region. region.state ≡
            grid_state layout.now.net layout.now.chart start.now every r (slice_index start.now.steps r)) }
        ensures in_bounds { IfOk result (λ region. HasRowsInBounds layout.now.net layout.now.chart region.state) }
    {
        let net = layout.net();
        let steps = net.steps;
        let step = start.steps[r as usize];
        let cells = layout.cells(r);
        let wiring = Wiring::new(alloc, layout, r)?;
        let own = CellRows::new(alloc, &start.rows, &start.earlier, cells)?;
        let put = nothing_put(alloc, layout.halo(r).len())?;
        let trail = first_notes(alloc, own.rows(), is_recorded(steps, every, step))?;
        Ok(PlainRegion {
            number: r,
            started: step,
            every,
            step,
            wiring,
            cells: own,
            put,
            trail,
        })
    }

    /// Its number.
    pub fn number(&self) -> u32
        ensures { result ≡ self.now.state.number }
    {
        self.number
    }

    /// Its step: so many steps are done.
    pub fn step(&self) -> u64
        ensures { result ≡ self.now.state.step }
    {
        self.step
    }

    /// The row of its `i`-th cell at its step.
    pub fn row(&self, i: u32) -> Row
        requires { i < length self.now.state.rows }
        ensures { result ≡ row_at self.now.state.rows i }
    {
        self.cells.rows()[i as usize]
    }

    /// What its `i`-th cell held a step before, in parts.
    pub fn before(&self, i: u32) -> u64
        requires { i < length self.now.state.before }
        ensures { result ≡ slice_index self.now.state.before i }
    {
        self.cells.before(i)
    }

    /// What is noted of it: for each recorded step from its start to its step a note for each cell, in their order.
    pub fn trail(&self) -> &[Note]
        ensures { result.now ≡ self.now.state.trail }
    {
        &self.trail
    }

    /// What its `j`-th border cell holds at its step, in parts.
    pub fn border_now(&self, layout: &Layout, j: u32) -> u64
        requires of { IsOf layout.now.chart self.now }
        requires there { j < length (list_at layout.now.chart.border self.now.state.number) }
        ensures { (p : ℕ) → p < length (list_at layout.now.chart.cells self.now.state.number) →
            slice_index (list_at layout.now.chart.cells self.now.state.number) p ≡ slice_index (list_at layout.now.chart.border self.now.state.number) j →
            result ≡ occupancy self.now.state.rows p }
    {
        let _cells = layout.regions();
        self.cells.held(self.wiring.border[j as usize])
    }

    /// Tells what the `j`-th cell of its halo holds at its step, in parts.
    pub fn halo_put(&mut self, j: u32, n: u64)
        requires { j < length self.old.state.put }
        ensures state { self.new.state ≡ record self.old.state { put = slice_set self.old.state.put j (Some n) } }
        ensures opened { (net : Network) (chart : ChartLists) → IsIn net chart self.old → IsIn net chart self.new }
    {
        self.put[j as usize] = Some(n);
    }

    /// Takes the region through its step, by its own rows and by what was told of its halo; nothing is told of its halo
    /// then. Where there is no memory for its notes, the region stays as it was.
    pub fn advance(&mut self, layout: &Layout) -> Result<(), NoMemory>
        requires opened { IsIn layout.now.net layout.now.chart self.old }
        requires in_time { self.old.state.step < layout.now.net.steps }
        requires in_bounds { HasRowsInBounds layout.now.net layout.now.chart self.old.state }
        requires halo { HasHaloPut layout.now.net layout.now.chart self.old.state }
        ensures state { OnOk result (self.new.state ≡ advanced layout.now.net layout.now.chart self.old.state) }
        ensures opened { IsIn layout.now.net layout.now.chart self.new }
        ensures bounds { HasRowsInBounds layout.now.net layout.now.chart self.new.state }
        ensures unchanged { OnErr result (self.new ≡ self.old) }
    {
        let net = layout.net();
        let steps = net.steps;
        let cells = layout.cells(self.number);
        let halo = layout.halo(self.number);
        let recorded = is_recorded(steps, self.every, self.step + 1);
        make_room(&mut self.trail, cells.len(), recorded)?;
        self.cells.step(
            net,
            self.step,
            &self.wiring.connectors,
            cells,
            halo,
            &self.put,
        );
        self.step += 1;
        note_step(&mut self.trail, self.cells.rows(), recorded);
        clear(&mut self.put);
        Ok(())
    }
}

// Nothing is told any more.
fn clear(put: &mut [Option<u64>])
    ensures { put.new ≡ replicate (length put.old) None }
{
    for j in 0..put.len() {
        put[j] = None;
    }
}
