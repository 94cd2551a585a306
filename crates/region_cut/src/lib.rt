//! Cuts the cells of a network into regions, and tells what each region has to do with the others.
//!
//! A cutting gives each cell the number of its region. A layout is a network that is cut. It has five lists for each
//! region, its chart, each in ascending order: its cells, its neighbours, its border cells, the connectors that touch it,
//! and its halo, which is the cells of other regions that these connectors touch.
#![tactic(auto)]

mod border;
mod cell_lists;
mod chart;
mod connector_cells;
mod connector_lists;
mod crossing;
mod cut;
mod even;
mod fault;
mod halo;
mod halo_lists;
mod layout;
mod list_place;
mod lists;
mod met;
mod neighbours;
mod ordered;
mod own_or_even;

pub use chart::Chart;
pub use connector_cells::three_cells;
pub use crossing::crosses;
pub use cut::Cut;
pub use fault::CutFault;
pub use halo::Halo;
pub use layout::Layout;
pub use list_place::{place, place_if_listed};
pub use own_or_even::{charted, cutting};
