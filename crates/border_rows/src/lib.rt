//! The words by which threads share the regions of a cut network, and where each stands in one table.
//!
//! Each region has a claim word, a step word, and two rows of a word for each border cell, one for each parity of a step.
//! specs/ has the rule of the shared field that holds between any two atomic steps (docs/inside/FIELD.md).
#![tactic(auto)]

mod places;
mod span;
mod view;

pub use places::Places;
pub use view::{Hold, PublishedStep, Short, Terms, View};
