//! Finds an order of the cells of a region in which the cells of each chain of links lie side by side.
//!
//! A walk along the links finds it, of which no more is proved than that it stays in bounds (`chains.rt`, `walk.rt`).
//! A check at run time then finds that each cell stands in it once (`inverse.rt`); where one didn't, the order that
//! was given would be taken.
#![tactic(auto)]

mod chains;
mod inverse;
mod order;
#[cfg(test)]
mod tests;
mod walk;

pub use order::Order;
