ghost use Rattle.std.specs.Prelude.{◌≡◌, ◌+◌, ◌<◌, ◌≤◌, ℕ, IfOk, Some, None, length, replicate, slice_index, slice_set};
ghost use Rattle.network_file.specs.Network.{Network};
ghost use Rattle.flow_model.specs.State.{occupancy, row_at};
ghost use Rattle.region_cut.specs.Chart.{ChartLists, list_at};
ghost use Rattle.region_cut.specs.Cuttings.{region_count};
ghost use Rattle.region_cut.specs.LawfulSteps.{AreLawful};

use crate::note::Note;
use crate::opening::border_places;
use crate::ordered_rows::OrderedRows;
use crate::placing::place_cells;
use crate::recording::{first_notes, is_recorded, note_step};
use crate::start::Start;
use flow_model::Row;
use no_memory::NoMemory;
use region_body::nothing_put;
use region_cut::Layout;
use std::alloc::Global;
use std::marker::Model;

/// A region of a layout, with the rows of its cells at its step.
///
/// It is opened with a layout and a start, and used with that layout alone. Before each
/// step its halo is told what the cells around it hold as that step begins.
#[derive(Debug, Drop)]
pub struct Region {
    number: u32,
    started: u64,
    every: u64,
    step: u64,
    cells: OrderedRows,
    // The place of each border cell among its cells.
    border: Vec<u32>,
    put: Vec<Option<u64>>,
    trail: Vec<Note>,
}

impl Model for Region {
    ghost use Rattle.std.specs.Prelude.{vec_capacity};
    ghost use Rattle.region_step.specs.Ordered.{before_in, rows_in};
    ghost use Rattle.region_step.specs.Region.{RegionValue};

    ghost Value = { RegionValue };

    ghost view = { λ region. record {
      state = record {
        number = region.number;
        started = region.started;
        every = region.every;
        step = region.step;
        rows = rows_in region.cells;
        before = before_in region.cells;
        trail = region.trail.items;
        put = region.put.items;
      };
      body = record { ordered = region.cells; border = region.border.items; room = vec_capacity region.trail };
    } };
}

impl Region {
    ghost use Rattle.region_step.specs.Advance.{HasHaloPut, HasRowsInBounds, advanced};
    ghost use Rattle.region_step.specs.Grid.{grid_held};
    ghost use Rattle.region_step.specs.Laws.{AreTheRecurrences, StayInBounds, grid_state, with_halo};
    ghost use Rattle.region_step.specs.Opened.{IsIn, IsOf};
    ghost use Rattle.region_step.specs.Start.{StartLists};
    ghost use Rattle.region_step.specs.Starting.{Fits, IsTrueStart};

    /// Region `r` at the step at which it starts. It is recorded at each step that `every` divides and at the last one,
    /// never where `every` is 0. All memory that it will need is taken here.
    pub fn open(
        alloc: Global,
        layout: &Layout,
        start: &Start,
        r: u32,
        every: u64,
    ) -> Result<Region, NoMemory>
        requires fits { Fits layout.now.net layout.now.chart.cut start.now }
        requires there { r < region_count layout.now.chart.cut }
        ensures opened { IfOk result (λ region. IsIn layout.now.net layout.now.chart region) }
        ensures state { IfOk result (λ region. region.state ≡
            grid_state layout.now.net layout.now.chart start.now every r (slice_index start.now.steps r)) }
        ensures in_bounds { IfOk result (λ region. HasRowsInBounds layout.now.net layout.now.chart region.state) }

        // The rows that this start's regions come to are in bounds at each step; from a true start with lawful steps they
        // are those of the recurrences, taken one step of the whole network at a time.
        ensures bounds { StayInBounds layout.now.net layout.now.chart.cut start.now }
        ensures recurrences { AreLawful layout.now.net layout.now.chart.cut start.now.steps → IsTrueStart layout.now.net layout.now.chart.cut start.now →
            AreTheRecurrences layout.now.net layout.now.chart.cut start.now }
    {
        let net = layout.net();
        let steps = net.steps;
        let step = start.steps[r as usize];
        let cells = place_cells(alloc, layout, start, r)?;
        let border = border_places(alloc, layout.border(r), layout.cells(r))?;
        let put = nothing_put(alloc, layout.halo(r).len())?;
        let trail = first_notes(alloc, &cells, steps, every, step)?;
        Ok(Region {
            number: r,
            started: step,
            every,
            step,
            cells,
            border,
            put,
            trail,
        })
    }

    /// Its number.
    pub fn number(&self) -> u32
        ensures { result ≡ self.now.state.number }
    {
        self.number
    }

    /// Its step: so many steps are done.
    pub fn step(&self) -> u64
        ensures { result ≡ self.now.state.step }
    {
        self.step
    }

    /// The row of its `i`-th cell at its step.
    pub fn row(&self, i: u32) -> Row
        requires { i < length self.now.state.rows }
        ensures { result ≡ row_at self.now.state.rows i }
    {
        self.cells.row(i)
    }

    /// What its `i`-th cell held a step before, in parts.
    pub fn before(&self, i: u32) -> u64
        requires { i < length self.now.state.before }
        ensures { result ≡ slice_index self.now.state.before i }
    {
        self.cells.before(i)
    }

    /// What is noted of it: for each recorded step from its start to its step a note for each cell, in their order.
    pub fn trail(&self) -> &[Note]
        ensures { result.now ≡ self.now.state.trail }
    {
        &self.trail
    }

    /// What its `j`-th border cell holds at its step, in parts.
    pub fn border_now(&self, layout: &Layout, j: u32) -> u64
        requires of { IsOf layout.now.chart self.now }
        requires there { j < length (list_at layout.now.chart.border self.now.state.number) }
        ensures { (p : ℕ) → p < length (list_at layout.now.chart.cells self.now.state.number) →
            slice_index (list_at layout.now.chart.cells self.now.state.number) p ≡ slice_index (list_at layout.now.chart.border self.now.state.number) j →
            result ≡ occupancy self.now.state.rows p }
    {
        let _cells = layout.regions();
        self.cells.held(self.border[j as usize])
    }

    /// Tells what the `j`-th cell of its halo holds at its step, in parts.
    pub fn halo_put(&mut self, j: u32, n: u64)
        requires { j < length self.old.state.put }
        ensures state { self.new.state ≡ record self.old.state { put = slice_set self.old.state.put j (Some n) } }
        ensures opened { (net : Network) (chart : ChartLists) → IsIn net chart self.old → IsIn net chart self.new }
    {
        self.put[j as usize] = Some(n);
    }

    /// Takes the region through its step, by its own rows and by what was told of its halo; nothing is told of its halo
    /// then. It takes no memory.
    #[inline(never)]
    pub fn advance(&mut self, layout: &Layout)
        requires opened { IsIn layout.now.net layout.now.chart self.old }
        requires in_time { self.old.state.step < layout.now.net.steps }
        requires in_bounds { HasRowsInBounds layout.now.net layout.now.chart self.old.state }
        requires halo { HasHaloPut layout.now.net layout.now.chart self.old.state }
        ensures state { self.new.state ≡ advanced layout.now.net layout.now.chart self.old.state }
        ensures opened { IsIn layout.now.net layout.now.chart self.new }
        ensures bounds { HasRowsInBounds layout.now.net layout.now.chart self.new.state }

        // From a start's region at a step, whose halo was told what each cell holds there, it comes to the next step.
        ensures grid { (start : StartLists) (every r t : ℕ) → slice_index start.steps r ≤ t →
            self.old.state ≡ with_halo layout.now.chart (grid_held layout.now.net layout.now.chart.cut start t) (grid_state layout.now.net layout.now.chart start every r t) →
            self.new.state ≡ grid_state layout.now.net layout.now.chart start every r (t + 1) }
    {
        let net = layout.net();
        let steps = net.steps;
        let cells = layout.cells(self.number);
        self.cells.step(net, self.step, cells, &self.put);
        self.step += 1;
        let recorded = is_recorded(steps, self.every, self.step);
        note_step(&mut self.trail, &self.cells, recorded);
        clear(&mut self.put);
    }
}

// Nothing is told any more.
fn clear(put: &mut [Option<u64>])
    ensures { put.new ≡ replicate (length put.old) None }
{
    for j in 0..put.len() {
        put[j] = None;
    }
}
