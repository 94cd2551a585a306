//! Where a run goes on: from a saved text, which has the regions at steps of their own behind the network's file, or in another
//! cutting.
//!
//! - `saving` has [`save`], which writes the text line by line (`saved_lines`).
//! - `loading` has [`load`], which reads it, or tells its first fault. `reading` takes the text apart: `head` has its lines,
//!   `lines` the fields of one, and `number` what a field spells.
//! - `layout_in` cuts the network as the row lines say, and `start_in` has where its regions start.
//! - `reopening` has [`even_start`]: regions that all stand at one step go on from there in another cutting.
#![tactic(auto)]

mod fault;
mod head;
mod layout_in;
mod lines;
mod loading;
mod number;
mod reading;
mod reopening;
mod row_line;
mod saved;
mod saved_head;
mod saved_lines;
mod saving;
mod start_in;

pub use fault::LoadFault;
pub use loading::load;
pub use reopening::even_start;
pub use row_line::RowLine;
pub use saved::Saved;
pub use saving::save;
