//! The shared field: regions that any thread may take, advance by a step and give back (docs/inside/FIELD.md).
//!
//! `open` makes a field and a pass with all of its seats; `share` and `unite` cut passes and join them; `turn` takes a
//! region one step on where nothing stands in its way, `look` tells the step that a region has published, and `shot` shows
//! all regions in a room; `close` hands them out. `Pauses` counts how often a call lets other threads go on. `taken` and
//! `freed` have what lets an observer be told of a region, and how it is given back; `sight` the same of a shot. `steps` has
//! the atomic steps of a turn one by one, `parts` what a turn does with a region, `gather` what a shot does with all of
//! them, and `plays` what each step tells.
#![tactic(auto)]

mod close;
mod field;
mod first_words;
mod freed;
mod gather;
mod look;
mod observer;
mod open;
mod parts;
mod pauses;
mod plays;
mod rule;
mod share;
mod shot;
mod sight;
mod steps;
mod taken;
mod turn;

pub use close::Closed;
pub use field::{Field, Pass};
pub use freed::Freed;
pub use observer::{NoObserver, Observer};
pub use pauses::Pauses;
pub use shot::Shot;
pub use sight::{Watched, Watching};
pub use taken::Taken;
pub use turn::Turn;
