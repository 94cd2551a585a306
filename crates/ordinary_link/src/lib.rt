//! The flow of one ordinary link in one step: what the upstream cell can send, what the downstream
//! cell can receive, and the lesser of the two, which the link carries.
//!
//! All amounts are in parts, millionths of a vehicle, and every quotient is rounded down to whole
//! parts. No call takes memory.
//!
//! `send_row`, `link_row` and `step_row` do the same for many cells at once. No crate uses them: regions
//! step by one loop over their places, which is faster (docs/inside/DECISIONS.md). They stand for a caller that
//! keeps its cells in columns.
#![tactic(auto)]

mod link;
mod receive;
mod rows;
mod send;
mod space;

pub use fixed_flow::MOST_PARTS;
pub use link::link_flow;
pub use receive::receiving;
pub use rows::{link_row, send_row, step_row};
pub use send::sending;
pub use space::Room;
