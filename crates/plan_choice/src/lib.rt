//! The best of several plans: an input of a base and plans is cut into the network files of its candidates, and of several
//! networks the one with the least delay is chosen.
//!
//! ```text
//! let pieces = Pieces::of(alloc, &input)?;              // 1 to 16 plans behind their separators
//! for p in 0..pieces.count() {
//!     let file = pieces.candidate(alloc, p)?;           // the base with plan p behind it, for as long as it is read
//!     nets.push(Net::read(alloc, &file)?)?;
//! }
//! let choice = choose(rt, alloc, &nets)?;               // the delays, and the first plan with the least
//! ```
#![tactic(auto)]

mod choice;
mod delays;
mod lines;
mod pieces;
mod plan_count;
mod separators;
mod whole_run;

pub use choice::{Choice, choose};
pub use pieces::Pieces;
pub use plan_count::PlanCount;
