//! A region of a network that is cut, advanced one step at a time by itself.
//!
//! A [`Region`] has the rows of its cells and the notes of recorded steps. Before a step it is told what the cells of its
//! halo hold. A [`Start`] says at which step each region begins, and with which rows. A [`Setup`] is what regions are opened
//! with: a layout, a start, and how often they are recorded. [`Regions`] are all of a setup, at the steps to which they have come.
#![tactic(auto)]

mod bounds;
mod first_regions;
mod note;
mod opening;
mod ordered_rows;
mod placing;
mod recording;
mod region;
mod regions;
mod setup;
mod start;

pub use first_regions::open_regions;
pub use note::Note;
pub use opening::{border_places, halo_cells};
pub use recording::is_recorded;
pub use region::Region;
pub use regions::Regions;
pub use setup::Setup;
pub use start::Start;
