//! The text of a shot: of a run that is watched, all regions at one moment (docs/FORMAT.md, "The shots").
#![tactic(auto)]

mod cell_row_lines;
mod flight_lines;
mod region_lines;
mod whole_shot;

pub use whole_shot::shot_text;
