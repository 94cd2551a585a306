use flow_ledger::{Books, books, flight};
use flow_model::{Row, first_rows};
use network_file::Net;
use no_memory::NoMemory;
use region_cut::Layout;
use region_step::Region;
use std::alloc::Global;
use std::marker::Model;

/// Room for a snapshot: the step of each region, and for each cell its row there and what it held a step before.
#[derive(Debug, Drop)]
pub struct ShotRoom {
    steps: Vec<u64>,
    rows: Vec<Row>,
    earlier: Vec<u64>,
}

impl Model for ShotRoom {
    ghost use Rattle.snapshot.specs.Rooms.{RoomValue};

    ghost Value = { RoomValue };

    ghost view = { λ room. record { steps = room.steps.items; rows = room.rows.items; earlier = room.earlier.items } };
}

impl ShotRoom {
    ghost use Rattle.std.specs.Prelude.{◌≡◌, ◌<◌, IfOk, length};
    ghost use Rattle.network_file.specs.Numbered.{connector_at};
    ghost use Rattle.flow_ledger.specs.Balances.{books_of};
    ghost use Rattle.flow_ledger.specs.Flight.{flight_of};
    ghost use Rattle.region_step.specs.Opened.{IsOf};
    ghost use Rattle.snapshot.specs.Rooms.{IsRoomFor, ShowsRegion, StaysBeside, first_room};
    ghost use Rattle.snapshot.specs.RunLaws.{Balances, IsLinkFlow, IsStepFlow};

    /// A room that shows all regions at step 0.
    pub fn new(alloc: Global, layout: &Layout) -> Result<ShotRoom, NoMemory>
        ensures first { IfOk result (λ room. room ≡ first_room layout.now.net layout.now.chart) }
        ensures room { IfOk result (IsRoomFor layout.now.chart) }
    {
        let net = layout.net();
        let cells = net.cells.len();
        let steps = vec![in alloc; 0; layout.regions() as usize]?;
        let earlier = vec![in alloc; 0; cells]?;
        let mut rows = vec![in alloc; Row {
            n: 0,
            come: 0,
            gone: 0,
            wait: 0
        }; cells]?;
        first_rows(net, &mut rows);
        Ok(ShotRoom {
            steps,
            rows,
            earlier,
        })
    }

    /// Shows a region at its step.
    pub fn fill(&mut self, layout: &Layout, region: &Region)
        requires room { IsRoomFor layout.now.chart self.old }
        requires region { IsOf layout.now.chart region.now }
        ensures room { IsRoomFor layout.now.chart self.new }
        ensures shows { ShowsRegion layout.now.chart self.new region.now }
        ensures others { StaysBeside layout.now.chart self.old self.new region.now.state.number }
    {
        let _regions = layout.regions();
        let cells = layout.cells(region.number());
        for p in 0..cells.len() {
            let i = cells[p] as usize;
            let place = p as u32;
            self.rows[i] = region.row(place);
            self.earlier[i] = region.before(place);
        }
        self.steps[region.number() as usize] = region.step();
    }

    /// The step of each region.
    pub fn steps(&self) -> &[u64]
        ensures { result.now ≡ self.now.steps }
    {
        &self.steps
    }

    /// The rows of all cells, in the order of the file, each at its region's step.
    pub fn rows(&self) -> &[Row]
        ensures { result.now ≡ self.now.rows }
    {
        &self.rows
    }

    /// What each cell held a step before, in parts; 0 at step 0.
    pub fn earlier(&self) -> &[u64]
        ensures { result.now ≡ self.now.earlier }
    {
        &self.earlier
    }

    /// The books of these rows.
    pub fn books(&self, net: &Net) -> Books
        requires { length self.now.rows ≡ length net.now.cells }
        ensures books { result ≡ books_of net.now self.now.rows }

        // Whatever the steps: what is inside and what is under way are what was there at first and what entered, less what
        // left.
        ensures balances { Balances net.now self.now.rows result }
    {
        let _steps = net.steps;
        books(net, &self.rows)
    }

    /// The flight of connector `k` by these rows, in parts: negative where the cells downstream are ahead.
    pub fn flight(&self, net: &Net, k: u32) -> i128
        requires one_each { length self.now.rows ≡ length net.now.cells }
        requires has_connector { k < length net.now.connectors }
        ensures flight { result ≡ flight_of net.now self.now.rows k }

        // It is what one step carries between cells of which some have taken it and others not.
        ensures step_flow { IsStepFlow net.now self.now.rows (connector_at net.now.connectors k) result }
        ensures link_flow { IsLinkFlow net.now self.now.rows (connector_at net.now.connectors k) result }
    {
        let _steps = net.steps;
        flight(net, &self.rows, k)
    }
}
