/// A region record: the number of a cell's region.
#[derive(Clone, Copy)]
pub struct RegionRecord {
    /// The number of the cell.
    pub cell: u32,
    /// The number of its region.
    pub number: u32,
}
