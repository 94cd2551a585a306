//! The calls over slices, for a step that takes many cells at once: eight places at a time by vectors,
//! and the rest one by one.
mod add;
mod hold;
mod link;
mod marks;
mod send;
mod step;
mod wait;

pub use link::link_row;
pub use send::send_row;
pub use step::step_row;
