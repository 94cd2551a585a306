//! The steps at which the regions of a network stand: one step for each region, where neighbours stand at most
//! one step apart. A region rises by one step where no neighbour stands lower. No call takes memory.
#![tactic(auto)]

mod lawful;
mod raise;

pub use lawful::is_lawful;
pub use raise::rise;
