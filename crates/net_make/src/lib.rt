//! A network that two numbers make (docs/FORMAT.md, "A made network").
//!
//! A size and a seed give the file of a corridor with ramps, signals and an incident, byte for byte the same everywhere.
//! It is for trials of any size. `making` has the call and writes the lines at the head of the file; the other lines are
//! written, in their order, by `cells`, `connectors`, `demands`, `signals` and `incident`. `draws` has the random numbers
//! that they use, and `features` says which main cells have ramps and signals.
#![tactic(auto)]

mod cells;
mod connectors;
mod demands;
mod draws;
mod features;
mod incident;
mod making;
mod numbers;
mod signals;

pub use making::make;
