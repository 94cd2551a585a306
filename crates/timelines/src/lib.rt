//! Values of a network's plan that change from step to step: what a cell sends or receives at most, what a link carries at
//! most, a gate's demand, a diverge's turning shares, the speed in a road.
//!
//! A timeline follows one such value forward. It answers with the value in force at a step and the first step at which that
//! may end ([`Now`]); until then the plan isn't asked again. The crate knows no network and no places.
#![tactic(auto)]

mod cell_timeline;
mod demands;
mod link_timeline;
mod now;
mod phase;
mod shares;
mod speeds;
mod timeline;

pub use cell_timeline::CellTimeline;
pub use demands::demand_of;
pub use link_timeline::LinkTimeline;
pub use now::Now;
pub use shares::shares_of;
pub use speeds::speed_of;
pub use timeline::Timeline;
