//! Monotonicity of networks of links alone: more room, faster waves in queues, more capacity, higher speeds and more green
//! never lessen what has passed a cell, and never raise the delay; more demand never lessens either (docs/MODEL.md).
//!
//! Where streams merge more capacity can add delay; of diverges nothing is said. The laws stand in the contracts of
//! three differences, which without them could go below 0. No call takes memory.
#![tactic(auto)]

mod differences;
mod links;

pub use differences::{delay_added, delay_saved, more_gone};
pub use links::has_links_alone;
