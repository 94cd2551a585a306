use record_fields::Name;

/// What a cell is (docs/MODEL.md).
#[derive(Clone, Copy, Debug, PartialEq, Eq)]
pub enum Kind {
    /// A stretch of road.
    Road {
        /// The most that it holds, in parts.
        room: u64,
        /// The numerator of its ratio of wave speed to free-flow speed.
        num: u32,
        /// The denominator of that ratio, at least the numerator.
        den: u32,
    },
    /// Where demand enters. It has no room limit, and no connector leads into it.
    Gate,
    /// Where vehicles leave. It has no room limit, and no connector leads out of it.
    Exit,
}

/// A cell of the network. Its capacity stands in the plan, under its number.
#[derive(Drop)]
pub struct Cell {
    /// Its name in the file.
    pub name: Name,
    /// What it is.
    pub kind: Kind,
    /// What it holds at step 0, in parts.
    pub first: u64,
}
