//! Workers at a shared field. Each has a pass of its own and takes turns on the regions.
//!
//! - [`sweep`] makes one turn on each region.
//! - [`crew_hints`] has helpers work all at once, each in a thread of its own where one can be made. They hand the numbers of
//!   regions to each other through their nests (`number_deques`).
//! - [`crew_watch_hints`] does so while one more pass takes a shot.
//! - [`finish`] brings all regions to the goal with the pass that has all seats.
//!
//! No call takes memory but those with helpers, and these never answer that there is none.
#![tactic(auto)]

mod driven;
mod finishing;
mod help_watching;
mod helper;
mod helping;
mod member;
mod one_sweep;
mod part;
mod pausing;

pub use driven::Driven;
pub use finishing::finish;
pub use help_watching::crew_watch_hints;
pub use helper::Helper;
pub use helping::crew_hints;
pub use member::Member;
pub use one_sweep::sweep;
pub use pausing::pause_where;
