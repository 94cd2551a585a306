//! The call that the program `ctm_wait` makes: a run whose workers wait where they would sweep in vain, so that they leave
//! their processors to other work (docs/FORMAT.md, "A run whose workers wait"). That the call returns isn't proved.
//!
//! - `call` has [`ctm_wait`], whose contract says of a call that returns what that of `ctm` says of a run that records
//!   nothing, but for the words.
//! - `answer` reads the `words`, brings the `input`, and finds the `report` of the regions that `waiting_run` takes to the
//!   last step.
#![tactic(auto)]

mod answer;
mod call;
mod input;
mod report;
mod seats;
mod waiting_run;
mod words;

pub use call::ctm_wait;
