//! Numbers of regions that workers hand to each other. Each worker has a nest: a deque of its own, from which the others
//! steal, and handles on theirs.
//!
//! `nests` makes the nests of a crew, empty, and [`Nest`] has what one member does: it fills its deque, takes the next
//! number from its own deque or another's, and pushes one. A number stands for a chunk of regions in a row, of which it is
//! the first. A number that there is no memory for is kept, so that no call but `nests` answers that there is none.
#![tactic(auto)]

mod deque;
mod deque_rule;
mod nest;
mod nesting;
mod thief;

pub use nest::Nest;
pub use nesting::nests;
