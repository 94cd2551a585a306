//! The report of a run (docs/MODEL.md, docs/FORMAT.md): what was recorded, the rows at the last step and the totals.
//!
//! The regions may have any start: of a true one, as step 0, all that is told is of the plain recurrences. The first page of
//! the library `ctm` has whole uses.
#![tactic(auto)]

mod by_cell;
mod cell_lines;
mod cell_places;
mod last_totals;
mod note_lines;
mod run_end;
mod step_count;
mod total_line;
mod whole_report;

pub use last_totals::put_last_totals;
pub use run_end::{run_delay, run_notes, run_rows};
pub use step_count::recorded_steps;
pub use whole_report::report;
