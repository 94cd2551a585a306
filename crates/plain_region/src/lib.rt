//! A region by the plain definition, which the fast region of `region_step` is compared with. In a step each connector
//! carries its flow by what its cells hold; then each row changes by what entered and left its cell.
//!
//! `PlainRegion` is opened, told of its halo and advanced as `Region` of `region_step` is, and comes to the same states.
//! No program runs it: `run_trials` takes both through the same networks and compares them.
#![tactic(auto)]

mod carry;
mod cell_ref;
mod cell_rows;
mod change;
mod notes;
mod occupancies;
mod opening;
mod plain;
mod region_connector;
mod rows;
mod wiring;

pub use plain::PlainRegion;
