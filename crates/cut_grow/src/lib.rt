//! Grows a cutting of a network along its roads: of the cuttings into even runs of cells, in the order of the file or of
//! a walk from cell to cell, one that cuts the fewest connectors.
#![tactic(auto)]

mod best;
mod counts;
mod cut_connectors;
mod gains;
mod growing;
mod joints;
mod lowest;
mod open_cells;
mod places;
mod runs;
mod side;
mod sizes;
mod span;
mod table;
mod trace;
mod walk;

pub use cut_connectors::cut_count;
pub use growing::grow;
