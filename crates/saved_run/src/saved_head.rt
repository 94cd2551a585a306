use crate::row_line::RowLine;

/// What a saved text says before its network.
#[derive(Drop)]
pub(crate) struct SavedHead {
    /// The step of each region.
    pub(crate) steps: Vec<u64>,
    /// A line for each cell, in the order of the file.
    pub(crate) rows: Vec<RowLine>,
}
