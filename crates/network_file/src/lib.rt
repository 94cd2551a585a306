//! Reads the network file: the records of its bytes become cells, connectors and a plan, or the first fault
//! among them is told with its record and its code (docs/FORMAT.md).
//!
//! bytes -> records (`record_fields`) -> a draft that takes one record at a time -> the network.
#![tactic(auto)]

mod buckets;
mod cell;
mod cell_fields;
mod cell_table;
mod connector;
mod connector_table;
mod cutting;
mod draft;
mod entry;
mod fault;
mod format;
mod limits;
mod name_index;
mod net;
mod reading;
mod records;

pub use cell::{Cell, Kind};
pub use connector::Connector;
pub use cutting::{greatest, has_no_gap};
pub use fault::NetFault;
pub use limits::{MOST_BYTES, MOST_CAPACITY, MOST_REGIONS, MOST_ROOM};
pub use net::Net;
pub use record_fields::{Code, Name};
