//! Amounts of traffic, in fixed point.
//!
//! An amount is a whole number of *parts*, millionths of a vehicle (docs/MODEL.md). This crate reads and prints
//! the spelling of an amount (docs/FORMAT.md), and has the two rules of arithmetic with which the flows are
//! rounded to whole parts: the middle of three values, and a share of an amount rounded down.
//! No call takes memory.
#![tactic(auto)]

mod amount;
mod median;
mod printing;
mod share;
mod spelling;
mod text;
mod whole_number;

pub use amount::{Amount, AmountFault, MOST_PARTS, PARTS_PER_VEHICLE};
pub use median::middle;
pub use printing::put_wide;
pub use share::{MOST_RATIO, share_floor};
pub use text::Text48;
pub use whole_number::whole;
