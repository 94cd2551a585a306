ghost use Rattle.std.specs.Prelude.{◌≡◌, ◌+◌, ◌<◌, length, map, slice_index};
ghost use Rattle.flow_model.specs.State.{occupancy, row_at};
ghost use Rattle.flow_model.specs.Stepping.{rows_after};
ghost use Rattle.region_step.specs.Ordered.{AreOrdered, CanStep, before_in, rows_in};

use chain_order::Order;
use flow_model::Row;
use network_file::Net;
use region_body::PlacedRows;
use std::marker::Model;

/// The rows of some cells at a step, in the order of the cells. They are placed in another order, in which the cells of a
/// chain of links lie side by side.
#[derive(Debug, Drop)]
pub(crate) struct OrderedRows {
    pub(crate) rows: PlacedRows,
    pub(crate) order: Order,
}

impl Model for OrderedRows {
    ghost use Rattle.region_step.specs.Ordered.{HavePlaces, OrderedCells};

    ghost Value = { OrderedCells };

    ghost view = { λ cells. record { placed = cells.rows; order = cells.order } };

    ghost invariant = { λ cells. HavePlaces (record { placed = cells.rows; order = cells.order }) };
}

impl OrderedRows {
    /// How many cells there are.
    pub(crate) fn count(&self) -> usize
        ensures { result ≡ length self.now.order.places }
    {
        self.order.places().len()
    }

    /// The row of the `i`-th cell.
    pub(crate) fn row(&self, i: u32) -> Row
        requires { i < length self.now.order.places }
        ensures { result ≡ row_at (rows_in self.now) i }
    {
        self.rows.row(self.place(i))
    }

    /// What the `i`-th cell holds.
    pub(crate) fn held(&self, i: u32) -> u64
        requires { i < length self.now.order.places }
        ensures { result ≡ occupancy (rows_in self.now) i }
    {
        self.rows.held(self.place(i))
    }

    /// All that has gone out of the `i`-th cell since step 0.
    pub(crate) fn gone(&self, i: u32) -> u64
        requires { i < length self.now.order.places }
        ensures { result ≡ (row_at (rows_in self.now) i).gone }
    {
        self.rows.gone(self.place(i))
    }

    /// What the `i`-th cell held a step before.
    pub(crate) fn before(&self, i: u32) -> u64
        requires { i < length self.now.order.places }
        ensures { result ≡ slice_index (before_in self.now) i }
    {
        self.rows.before(self.place(i))
    }

    /// Takes the cells through step `t`, by what was put for each cell of their halo.
    pub(crate) fn step(&mut self, net: &Net, t: u64, cells: &[u32], put: &[Option<u64>])
        requires in_time { t < net.now.steps }
        requires can { CanStep net.now cells.now t self.old put.now }
        ensures rows { (can : CanStep net.now cells.now t self.old put.now) → rows_in self.new ≡
            rows_after net.now t can.n cells.now (rows_in self.old) }
        ensures ordered { (can : CanStep net.now cells.now t self.old put.now) →
            AreOrdered net.now cells.now can.halo can.connectors (t + 1) self.new }
        ensures before { (can : CanStep net.now cells.now t self.old put.now) → before_in self.new ≡ map (λ row. row.n) (rows_in self.old) }
        ensures order { self.new.order ≡ self.old.order }
    {
        let _steps = net.steps;
        self.rows.step(net, t, self.order.placed(), put);
    }

    // The place of the `i`-th cell.
    fn place(&self, i: u32) -> u32
        requires { i < length self.now.order.places }
        ensures place { result ≡ slice_index self.now.order.places i }
        ensures there { result < length self.now.placed.constants }
        ensures held { result < length self.now.placed.before }
    {
        self.order.places()[i as usize]
    }
}
