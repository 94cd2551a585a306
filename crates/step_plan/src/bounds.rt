/// How many cells a plan may have, so that each has a number of 32 bits.
pub const MOST_CELLS: u32 = 4_294_967_295;

/// How many demand records a plan may have.
pub const MOST_RECORDS: usize = 200_000;

/// How many steps a network may have, and the longest cycle of a signal.
pub const MOST_STEPS: u32 = 100_000;
