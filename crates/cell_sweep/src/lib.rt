//! The states of cells side by side, and a step of them through the links between neighbours.
//!
//! What a step changes of a cell is its [`CellState`], and the states lie in an order in which the cells of a chain of links are
//! side by side. A link from a cell to the next one is kept in its state, as the most that it carries. [`sweep_all`] takes all states
//! through the links in one pass. Cells that have speed records lie in zones ([`SpeedZone`]), and the pass asks for speeds in
//! these alone, but for up to three cells at its end. Where [`moving`] finds no link that carries anything, the cells wait.
//!
//! All amounts are in parts. But for the zones nothing takes memory.
#![tactic(auto)]

mod cell_state;
mod movement;
mod slow_cell;
mod speed_zone;
mod sweep;
mod sweep_free;
mod sweep_zones;
mod waiting;

pub use cell_state::CellState;
pub use movement::{moving, reaching};
pub use slow_cell::is_slow;
pub use speed_zone::{SpeedZone, zones_of};
pub use sweep::sweep_all;
pub use waiting::{note_held, wait_all, waited};
