/// What leads out of one or two cells and into one or two, each by its number (docs/MODEL.md).
#[derive(Clone, Copy, Debug, PartialEq, Eq)]
pub enum Connector {
    /// From one cell to one cell.
    Link {
        /// The cell upstream.
        up: u32,
        /// The cell downstream.
        down: u32,
    },
    /// From two cells to one cell (Daganzo 1995).
    Merge {
        /// The first cell upstream.
        up1: u32,
        /// The second cell upstream.
        up2: u32,
        /// The cell downstream.
        down: u32,
        /// The priority of the first, 1 to 1,000.
        p1: u32,
        /// The priority of the second.
        p2: u32,
    },
    /// From one cell to two cells (Daganzo 1995).
    Diverge {
        /// The cell upstream.
        up: u32,
        /// The first cell downstream.
        down1: u32,
        /// The second cell downstream.
        down2: u32,
        /// The turning share of the first, 1 to 1,000.
        b1: u32,
        /// The turning share of the second.
        b2: u32,
    },
}

impl Connector {
    /// The last cell that it leads into.
    pub(crate) fn last_cell(self) -> u32 {
        match self {
            Connector::Link { down, .. } | Connector::Merge { down, .. } => down,
            Connector::Diverge { down2, .. } => down2,
        }
    }
}
