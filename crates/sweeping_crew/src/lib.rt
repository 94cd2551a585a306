//! The plain form of a crew: its members sweep, one turn on each region in order, and hand no numbers of regions on. No
//! program stands on it; the trials of the field compare with it.
//!
//! `drive` makes a number of sweeps with one pass, `crew` has several members drive at once, each in a thread of its own
//! where one can be made, and `crew_watch` does so while one more pass takes a shot. No call takes memory.
#![tactic(auto)]

mod driving;
mod members;
mod watching;

pub use driving::drive;
pub use members::crew;
pub use watching::crew_watch;
