//! The plan of a network: what the network file says of single steps.
//!
//! A plan has a list of cells, each with its capacity and its signal, limits, demand records, turn
//! records and speed records. It is asked for the capacity, the light, the demand, the turning shares
//! and the speed of a cell at a step, or for all their changes in the order of the steps. Amounts are
//! in parts, millionths of a vehicle; cells are numbered from 0 in the order in which they were put.
//!
//! - The plan is in `network_plan`; what it says of one cell in `cell_plan`, over its `cell_records`. A
//!   `cell_record` is one of `signal`, `limit`, `demand`, `turn` and `speed`; `plan_counts` counts each kind.
//! - Lists of changes: `span` makes that of one `ranged` record; `merge` makes one of two lists, by a
//!   `join` of their values; `record_changes` that of all records of one kind that a cell has; `fallback`
//!   puts the cell's own value where no record speaks.
#![tactic(auto)]

mod bounds;
mod cell_plan;
mod cell_record;
mod cell_records;
mod change;
mod demand;
mod fallback;
mod join;
mod limit;
mod merge;
mod network_plan;
mod plan_counts;
mod range;
mod ranged;
mod record_changes;
mod signal;
mod span;
mod speed;
mod turn;

pub use bounds::{MOST_CELLS, MOST_RECORDS, MOST_STEPS};
pub use cell_record::CellRecord;
pub use change::Change;
pub use demand::Demand;
pub use limit::Limit;
pub use network_plan::Plan;
pub use plan_counts::PlanCounts;
pub use signal::Signal;
pub use speed::Speed;
pub use turn::Turn;
