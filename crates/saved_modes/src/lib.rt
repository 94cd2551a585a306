//! The modes in which workers take regions to a step or on from one: `save`, `resume` and `recut`. Each has a file here and
//! its definition of the same name in specs/, and answers a request and an input with the text, or says why there is none.
//!
//! - `recutting` has [`recut_report`], the report of a run in parts, each in a cutting of its own.
#![tactic(auto)]

mod recut_mode;
mod recutting;
mod resume_mode;
mod save_mode;

pub use recut_mode::recut_text;
pub use recutting::recut_report;
pub use resume_mode::resume_text;
pub use save_mode::save_text;
