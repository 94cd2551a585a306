ghost use Rattle.std.specs.Prelude.{◌≡◌, ◌<◌, IfOk, map, slice_index};
ghost use Rattle.flow_model.specs.State.{row_at};
ghost use Rattle.region_cut.specs.Chart.{list_at};
ghost use Rattle.region_cut.specs.Cuttings.{region_count};
ghost use Rattle.region_step.specs.Opened.{halo_cells};
ghost use Rattle.region_step.specs.Ordered.{AreOrdered, before_in, rows_in};
ghost use Rattle.region_step.specs.Starting.{Fits};

use crate::opening::halo_cells;
use crate::ordered_rows::OrderedRows;
use crate::start::Start;
use chain_order::Order;
use no_memory::NoMemory;
use region_body::{Cells, PlacedRows};
use region_cut::Layout;
use std::alloc::Global;

/// The cells of region `r` with the rows of a start.
pub(crate) fn place_cells(
    alloc: Global,
    layout: &Layout,
    start: &Start,
    r: u32,
) -> Result<OrderedRows, NoMemory>
    requires fits { Fits layout.now.net layout.now.chart.cut start.now }
    requires there { r < region_count layout.now.chart.cut }
    ensures ordered { IfOk result (λ ordered. AreOrdered layout.now.net (list_at layout.now.chart.cells r) (halo_cells layout.now.chart r)
        (list_at layout.now.chart.connectors r) (slice_index start.now.steps r) ordered) }
    ensures rows { IfOk result (λ ordered. rows_in ordered ≡ map (row_at start.now.rows) (list_at layout.now.chart.cells r)) }
    ensures before { IfOk result (λ ordered. before_in ordered ≡ map (slice_index start.now.earlier) (list_at layout.now.chart.cells r)) }
{
    let net = layout.net();
    let _cells = &net.cells;
    let cells = layout.cells(r);
    let connectors = layout.connectors(r);
    let order = Order::of(alloc, net, cells, connectors)?;
    let halo = halo_cells(alloc, layout.halo(r))?;
    let region = Cells {
        cells,
        order: &order,
        halo: &halo,
        connectors,
    };
    let step = start.steps[r as usize];
    let rows = PlacedRows::new(alloc, net, step, &region, &start.rows, &start.earlier)?;
    Ok(OrderedRows { rows, order })
}
