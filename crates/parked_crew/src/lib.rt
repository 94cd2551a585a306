//! A crew at a shared field whose members wait where they would sweep in vain, for machines that do other work beside a run
//! (docs/inside/FIELD.md, "A crew that parks").
//!
//! `parked` brings all regions to a goal with a pass for each member. A member that has moved no region in a sweep, and has
//! found one that a neighbour has to go before, sleeps until a [`Board`] tells that another member has moved one. That
//! `parked` returns isn't proved: it may wait.
#![tactic(auto)]

mod board;
mod member;
mod parking;
mod sweep;
mod swept;

pub use board::Board;
pub use parking::parked;
