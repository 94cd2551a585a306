//! The records of a network file one by one: the fields of each, its kind, what its fields say by themselves, and
//! why one is refused (docs/FORMAT.md).
//!
//! `file_records` reads a file (`csv`) as `file_record`s. `record_kind` has their kinds, `fields` their numbers, `name` the
//! names of cells, `code` their faults. `marks` is a set of cell numbers, and `region_table` has the region records so far.
#![tactic(auto)]

mod code;
mod fields;
mod file_record;
mod file_records;
mod marks;
mod name;
mod record_kind;
mod region_record;
mod region_table;

pub use code::Code;
pub use fields::{amount_within, range_within, ratio, weights, whole_within};
pub use file_record::FileRecord;
pub use file_records::{next_record, open_records};
pub use marks::Marks;
pub use name::Name;
pub use record_kind::RecordKind;
pub use region_record::RegionRecord;
pub use region_table::RegionTable;
