/// Where a region finds a cell of one of its connectors.
#[derive(Clone, Copy, Debug, PartialEq, Eq)]
pub(crate) enum CellRef {
    /// At this place among its own cells.
    Own(u32),
    /// At this place in its halo.
    Halo(u32),
}
