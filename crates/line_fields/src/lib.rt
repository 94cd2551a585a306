//! The fields of the lines on standard output (docs/FORMAT.md): counts, amounts and the row of a cell.
//!
//! Each call appends to a text. Where memory is refused what stood there stands still, and a part of the field may
//! follow it.
#![tactic(auto)]

mod amounts;
mod counts;
mod rows;

pub use amounts::{put_amount, put_signed};
pub use counts::put_count;
pub use rows::put_row_fields;
