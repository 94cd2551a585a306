//! A run of a network by workers, each in a thread of its own: they share a field of the network's regions, take them
//! through their steps in rounds, and the caller finishes what they leave. A run that is watched is shown in between.
#![tactic(auto)]

mod crew;
mod near;
mod rounds;
mod run;
mod taken_regions;
mod watched_run;

pub use near::room_near;
pub use taken_regions::{last_regions, regions_from};
pub use watched_run::{Watched, watched_regions};
