use flow_model::Row;

/// What a saved text says of a cell.
#[derive(Clone, Copy, Debug, PartialEq, Eq)]
pub struct RowLine {
    /// The number of its region.
    pub region: u64,
    /// Its row at its region's step.
    pub row: Row,
    /// What it held a step before, in parts.
    pub earlier: u64,
}
