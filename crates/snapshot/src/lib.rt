//! A snapshot of a network whose regions stand at steps of their own.
//!
//! A [`ShotRoom`] has the step of each region, and for each cell its row at that step and what it held a step before. Its
//! books and flights are computed of these. [`goal_at`] divides the steps of a run.
#![tactic(auto)]

mod goal;
mod room;

pub use goal::goal_at;
pub use room::ShotRoom;
