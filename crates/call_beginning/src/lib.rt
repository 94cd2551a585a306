//! How a call of the program begins: its words are read, its input is brought and read as a network, and that is cut as the
//! words ask (docs/FORMAT.md). `call_ending` has how a call ends.
//!
//! - `command_line` has the words that a program was called with ([`given_words`]), and `words` has them read
//!   ([`request_of`]). `input` brings the input of a request ([`input_of`]): it has the tables by mode `reads_source` and
//!   `most_input`. A request with its input is a task (specs/Task.antt).
//! - `network_input` reads a network, or tells its fault; `recording` says how much a run may record, `used_regions` in how
//!   many regions it is, and `used_cutting` in which.
#![tactic(auto)]

mod command_line;
mod input;
mod network_input;
mod recording;
mod used_cutting;
mod used_regions;
mod words;

pub use command_line::given_words;
pub use input::input_of;
pub use network_input::{network_in, put_fault, refused};
pub use recording::{large_record, records_too_much};
pub use used_cutting::layout_asked;
pub use used_regions::regions_wanted;
pub use words::request_of;
