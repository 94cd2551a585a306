//! The recurrences of a network: the row of each cell, what a connector carries in a step, and the step
//! of the whole network (docs/MODEL.md).
//!
//! A cell's row says what it holds, what came in and went out since step 0, and how long it all waited.
//! In a step each connector carries what its cells upstream can send and its cells downstream can receive, by
//! the rows as the step begins. No call takes memory.
#![tactic(auto)]

mod carried;
mod connector_flow;
mod limits;
mod row;
mod step;

pub use carried::Flow;
pub use connector_flow::flow;
pub use limits::{arriving, room_of};
pub use row::Row;
pub use step::{first_rows, plain_step};
