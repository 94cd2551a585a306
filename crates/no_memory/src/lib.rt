//! What refuses: a fault of some kind, or memory.
#![tactic(auto)]

mod memory;
mod refused;

pub use memory::NoMemory;
pub use refused::Refused;
