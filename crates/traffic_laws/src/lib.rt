//! What traffic engineers take from the theory, as theorems of these recurrences (docs/MODEL.md): delay is the area
//! between the curves of arrival and departure, and what each part has waited, added up; nothing departs from a cell but a
//! step after it arrived or later; and a bottleneck that is fed and drained passes its capacity in each green step.
//!
//! Each call computes such a figure from what a run has recorded, and its contract has the law. No call takes memory.
#![tactic(auto)]

mod area;
mod bottleneck;
mod spent;
#[cfg(test)]
mod tests;
mod travel;

pub use area::wait_area;
pub use bottleneck::most_passed;
pub use spent::time_spent;
pub use travel::{Travel, travel_steps};
