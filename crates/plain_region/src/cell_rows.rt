ghost use Rattle.std.specs.Prelude.{◌≡◌, ◌<◌, All, IfOk, length, map, slice_index};
ghost use Rattle.flow_model.specs.State.{occupancy, row_at};
ghost use Rattle.flow_model.specs.Stepping.{rows_after};

use crate::carry::carry_all;
use crate::change::Change;
use crate::occupancies::Occupancies;
use crate::opening::{earlier_rows, rows_of};
use crate::region_connector::RegionConnector;
use crate::rows::change_rows;
use flow_model::Row;
use network_file::Net;
use no_memory::NoMemory;
use region_cut::Halo;
use std::alloc::Global;
use std::marker::Model;
use std::mem;

/// The rows of a region's cells at its step, and what each of them held a step before.
#[derive(Debug, Drop)]
pub(crate) struct CellRows {
    rows: Vec<Row>,
    // The rows of a step before, over which the next step is written.
    last: Vec<Row>,
    changes: Vec<Change>,
}

impl Model for CellRows {
    ghost use Rattle.std.specs.Prelude.{◌≡◌, length, map};
    ghost use Rattle.plain_region.specs.CellRows.{RowsAndBefore};

    ghost Value = { RowsAndBefore };

    ghost view = { λ cells. record { rows = cells.rows.items; before = map (λ row. row.n) cells.last.items } };

    ghost invariant = { λ cells. (length cells.last.items ≡ length cells.rows.items) × (length cells.changes.items ≡ length cells.rows.items) };
}

impl CellRows {
    ghost use Rattle.region_step.specs.Advance.{known};
    ghost use Rattle.plain_region.specs.Carrying.{IsScene};

    /// The rows of these cells at a start.
    pub(crate) fn new(
        alloc: Global,
        rows: &[Row],
        earlier: &[u64],
        cells: &[u32],
    ) -> Result<CellRows, NoMemory>
        requires there { All (λ i. i < length rows.now) cells.now }
        requires there_earlier { All (λ i. i < length earlier.now) cells.now }
        ensures rows { IfOk result (λ own. own.rows ≡ map (row_at rows.now) cells.now) }
        ensures before { IfOk result (λ own. own.before ≡ map (slice_index earlier.now) cells.now) }
    {
        let own = rows_of(alloc, rows, cells)?;
        let last = earlier_rows(alloc, earlier, cells)?;
        let changes = vec![in alloc; Change::NONE; cells.len()]?;
        Ok(CellRows {
            rows: own,
            last,
            changes,
        })
    }

    /// The row of each cell.
    pub(crate) fn rows(&self) -> &[Row]
        ensures { result.now ≡ self.now.rows }
    {
        &self.rows
    }

    /// What the `i`-th cell holds.
    pub(crate) fn held(&self, i: u32) -> u64
        requires { i < length self.now.rows }
        ensures { result ≡ occupancy self.now.rows i }
    {
        self.rows[i as usize].n
    }

    /// What the `i`-th cell held a step before.
    pub(crate) fn before(&self, i: u32) -> u64
        requires { i < length self.now.before }
        ensures { result ≡ slice_index self.now.before i }
    {
        self.last[i as usize].n
    }

    /// Takes them through step `t`.
    pub(crate) fn step(
        &mut self,
        net: &Net,
        t: u64,
        connectors: &[RegionConnector],
        cells: &[u32],
        halo: &[Halo],
        put: &[Option<u64>],
    )
        requires { IsScene net.now t cells.now (map (λ halo. halo.cell) halo.now) connectors.now self.old.rows put.now }
        ensures rows { self.new.rows ≡ rows_after net.now t (known cells.now (map (λ halo. halo.cell) halo.now) self.old.rows put.now) cells.now self.old.rows }
        ensures before { self.new.before ≡ map (λ row. row.n) self.old.rows }
    {
        let occupancies = Occupancies {
            rows: &self.rows,
            put,
        };
        carry_all(
            net,
            t,
            connectors,
            cells,
            halo,
            &occupancies,
            &mut self.changes,
        );
        change_rows(net, t, cells, &self.rows, &self.changes, &mut self.last);
        mem::swap(&mut self.rows, &mut self.last);
    }
}
