//! The sums of a network by the rows of its cells, which may stand at different steps (docs/MODEL.md).
//!
//! The flight of a connector is what has gone out of its cells upstream and hasn't come into its cells downstream. It is 0
//! where these cells stand at one step. With the flights the books balance: what is inside and in flight is what was there
//! at first and entered, less what left. The delay is the sum of the cells' waits. No call takes memory.
#![tactic(auto)]

mod balance;
mod cell_sums;
mod connector_flight;
mod delay;
mod network_books;
mod sums;

pub use balance::books;
pub use connector_flight::flight;
pub use delay::total_delay;
pub use network_books::Books;
