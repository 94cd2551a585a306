use crate::cell::Cell;
use crate::connector::Connector;
use record_fields::RegionRecord;
use step_plan::CellRecord;

/// What a record of the file says, before a draft has taken it.
#[derive(Drop)]
pub(crate) enum Entry {
    /// The number of steps.
    Steps(u32),
    /// A cell and its capacity.
    Cell(Cell, u64),
    /// A link, a merge or a diverge.
    Connector(Connector),
    /// A cell's number, and a record of the plan for it.
    Record(u32, CellRecord),
    /// The region of a cell.
    Region(RegionRecord),
}
