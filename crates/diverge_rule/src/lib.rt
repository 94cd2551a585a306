//! The diverge of one road into two (Daganzo 1995; the rounding to whole parts is docs/MODEL.md's).
//!
//! The vehicles keep their order, so that the flow keeps to the turning shares: a branch that is blocked holds the
//! other back.
#![tactic(auto)]

mod flow;
mod split;

pub use flow::{diverge_by_whole, diverge_flow};
pub use split::Split;
