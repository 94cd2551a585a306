//! What a connector carries in a step, by what comes to the ends of its cells that send and what the others hold.
//!
//! A [`ConnectorTimeline`] has the limits of a connector's cells and follows them forward: it tells what the connector
//! carries, and before which step that stays nothing. A [`Ratio`] has a factor beside it, so that no step divides, and a
//! [`Space`] is a cell's room as a flow asks for it, with the factor of its ratio. The crate knows neither places nor speeds.
//!
//! All amounts are in parts. After a timeline is made nothing takes memory.
#![tactic(auto)]

mod carrying;
mod cell_space;
mod connector_timeline;
mod idling;
mod limit_timelines;
mod limits;
mod ratio;
mod rule;
mod space;
mod weight_pair;

pub use cell_space::space_of;
pub use connector_timeline::ConnectorTimeline;
pub use ratio::Ratio;
pub use rule::Rule;
pub use space::Space;
