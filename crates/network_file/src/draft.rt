ghost use Rattle.std.specs.Prelude.{◌≡◌, ◌≤◌, IfOk, length};
ghost use Rattle.network_file.specs.Draft.{empty_draft, with_entry};
ghost use Rattle.network_file.specs.declared.entry.Entry.TheVariants as says;
ghost use Rattle.network_file.specs.Fitting.{FitsEntry, FitsCell, FitsConnector, FitsRecord, FitsRegion};
ghost use Rattle.network_file.specs.Sound.{IsFormat};
ghost use Rattle.network_file.specs.Taking.{taken_before};
ghost use Rattle.network_file.specs.declared.limits.TheConstants.{MOST_BYTES};

use crate::cell::Cell;
use crate::cell_table::CellTable;
use crate::connector::Connector;
use crate::connector_table::ConnectorTable;
use crate::entry::Entry;
use crate::limits::MOST_BYTES;
use no_memory::NoMemory;
use record_fields::{RecordKind, RegionRecord, RegionTable};
use std::alloc::Global;
use std::marker::Model;
use step_plan::{CellRecord, MOST_STEPS, Plan};

/// The network as far as its records have been read. At each record it keeps what every network keeps.
#[derive(Drop)]
pub(crate) struct NetDraft {
    pub(crate) format: u32,
    pub(crate) steps: Option<u64>,
    pub(crate) cells: CellTable,
    pub(crate) connectors: ConnectorTable,
    pub(crate) plan: Box<Plan>,
    pub(crate) regions: RegionTable,
}

impl Model for NetDraft {
    ghost use Rattle.network_file.specs.Draft.{Draft};

    ghost Value = { Draft };

    ghost use Rattle.network_file.specs.Sound.{IsSoundDraft};

    ghost view = { λ a. record { format = a.format; steps = a.steps; cells = a.cells; connectors = a.connectors; plan = a.plan.value; regions = a.regions } };

    ghost invariant = { λ a. IsSoundDraft (record { format = a.format; steps = a.steps; cells = a.cells; connectors = a.connectors; plan = a.plan.value; regions = a.regions }) };
}

impl NetDraft {
    /// Without records, for those of a file of a format.
    pub(crate) fn of_file(alloc: Global, bytes: &[u8], format: u32) -> Result<NetDraft, NoMemory>
        requires known { IsFormat format }
        requires few { length bytes.now ≤ MOST_BYTES }
        ensures { IfOk result (λ draft. draft ≡ empty_draft format) }
    {
        let cells = CellTable::of_file(alloc, bytes)?;
        let connectors = ConnectorTable::new(alloc)?;
        let plan = Box::new(alloc, Plan::open(alloc))?;
        let regions = RegionTable::new(alloc)?;
        Ok(NetDraft {
            format,
            steps: None,
            cells,
            connectors,
            plan,
            regions,
        })
    }

    /// With the number of steps.
    fn with_steps(self, steps: u32) -> NetDraft
        requires some { 1 ≤ steps }
        requires few { steps ≤ MOST_STEPS }
        ensures { result ≡ with_entry self (says.Steps steps) }
    {
        NetDraft {
            steps: Some(u64::from(steps)),
            ..self
        }
    }

    /// With what a record of the file says.
    pub(crate) fn add(self, entry: Entry, bytes: &[u8]) -> Result<NetDraft, NoMemory>
        requires { FitsEntry self entry }
        ensures { IfOk result (λ more. more ≡ with_entry self entry) }
    {
        match entry {
            Entry::Steps(steps) => Ok(self.with_steps(steps)),
            Entry::Cell(cell, capacity) => self.add_cell(cell, capacity, bytes),
            Entry::Connector(connector) => self
                .near(connector.last_cell())
                .add_connector(connector),
            Entry::Record(cell, one) => self.near(cell).add_record(cell, one),
            Entry::Region(region) => self.near(region.cell).add_region(region),
        }
    }

    /// The same draft, in which the names of the next record are looked for at this cell first.
    fn near(self, cell: u32) -> NetDraft
        ensures { result ≡ self }
    {
        NetDraft {
            cells: self.cells.near(cell),
            ..self
        }
    }

    /// With one more cell, of this capacity.
    fn add_cell(self, cell: Cell, capacity: u64, bytes: &[u8]) -> Result<NetDraft, NoMemory>
        requires { FitsCell self cell capacity }
        ensures { IfOk result (λ more. more ≡ with_entry self (says.Cell cell capacity)) }
    {
        let mut plan = self.plan;
        plan.put_cell(capacity)?;
        let cells = self.cells.with(cell, bytes)?;
        Ok(NetDraft {
            cells,
            plan,
            ..self
        })
    }

    /// With one more connector.
    fn add_connector(self, connector: Connector) -> Result<NetDraft, NoMemory>
        requires { FitsConnector self connector }
        ensures { IfOk result (λ more. more ≡ with_entry self (says.Connector connector)) }
    {
        let connectors = self.connectors.with(connector)?;
        Ok(NetDraft { connectors, ..self })
    }

    /// With one more record of the plan for a cell.
    fn add_record(self, cell: u32, one: CellRecord) -> Result<NetDraft, NoMemory>
        requires { FitsRecord self cell one }
        ensures { IfOk result (λ more. more ≡ with_entry self (says.Record cell one)) }
    {
        let mut plan = self.plan;
        plan.put(cell, one)?;
        Ok(NetDraft { plan, ..self })
    }

    /// With the region of a cell.
    fn add_region(self, region: RegionRecord) -> Result<NetDraft, NoMemory>
        requires { FitsRegion self region }
        ensures { IfOk result (λ more. more ≡ with_entry self (says.Region region)) }
    {
        let regions = self.regions.with(region.cell, region.number)?;
        Ok(NetDraft { regions, ..self })
    }

    /// How many records it has of those that count together with this kind, where the format limits their number.
    pub(crate) fn taken_before(&self, kind: RecordKind) -> usize
        ensures { result ≡ taken_before kind self.now }
    {
        let counts = self.plan.counts();
        match kind {
            RecordKind::Steps | RecordKind::Signal | RecordKind::Region => 0,
            RecordKind::Road | RecordKind::Gate | RecordKind::Exit => self.cells.len(),
            RecordKind::Link | RecordKind::Merge | RecordKind::Diverge => self.connectors.len(),
            RecordKind::Limit => counts.limits,
            RecordKind::Demand => counts.demands,
            RecordKind::Turn => counts.turns,
            RecordKind::Speed => counts.speeds,
        }
    }
}
