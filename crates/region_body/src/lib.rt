//! The rows of a region's cells, and how a step changes them.
//!
//! The cells stand in an order in which those of a chain of links are side by side; a cell's place is its index there. Their
//! states are those of `cell_sweep`, which takes them through the links between neighbours. Here stands what is followed beside
//! that: the most of such a link and the speed in a cell where they change, what the gates demand, and each other connector, which
//! finds its cells among the region's own or in its halo. A step writes what has changed of the most and of the speeds, sweeps
//! the states, then has each other connector carry its flow, then brings the demands of the gates.
//!
//! All amounts are in parts. A step takes no memory.
#![tactic(auto)]

mod carry;
mod cell_constants;
mod cell_ref;
mod cells;
mod chain;
mod connections;
mod demands;
mod first;
mod followed_connector;
mod followed_link;
mod followed_speed;
mod gate;
mod joining;
mod opening;
mod own_place;
mod passing;
mod pause;
mod placed;
mod speeds;

pub use cells::Cells;
pub use opening::nothing_put;
pub use placed::PlacedRows;
