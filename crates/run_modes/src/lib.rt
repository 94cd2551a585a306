//! The modes in which workers take a network through all its steps, from step 0 on: `run`, `watch` and `sample`. Each has a
//! file here and its definition of the same name in specs/, and answers a request and an input with the text, or says why
//! there is none. What the observer was told is said in the words of `network_run`.
#![tactic(auto)]

mod run_mode;
mod sample_mode;
mod watch_mode;

pub use run_mode::run_text;
pub use sample_mode::sample_text;
pub use watch_mode::watch_text;
