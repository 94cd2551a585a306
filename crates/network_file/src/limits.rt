/// The most cells, connectors, limit records and demand records of a file of format 1.
pub(crate) const MOST_RECORDS_OF_FORMAT_1: usize = 100_000;

/// The greatest room of a road, in parts: 100,000 vehicles.
pub const MOST_ROOM: u64 = 100_000_000_000;

/// The greatest capacity of a cell, in parts: 100,000 vehicles.
pub const MOST_CAPACITY: u64 = 100_000_000_000;

/// The most regions of a cutting.
pub const MOST_REGIONS: u32 = 512;

/// The most bytes of a file.
pub const MOST_BYTES: usize = 16_777_216;
