//! The call that the program `ctm` makes, for any program: it does what words ask for over a source and two sinks
//! (docs/FORMAT.md).
//!
//! - `call` has [`ctm`], whose contract is the theorem from the words and the bytes of the input to the bytes on standard
//!   output. `call_ending` writes the text that `answer` finds, or the line that says why there is none.
//! - `answer` has the words read and the input brought by `call_beginning`, and has the mode find the text: those that take
//!   regions through their steps stand in `run_modes` and `saved_modes`, the others in `workerless_modes`. The tables by mode
//!   are `text_of`, and those of specs/Answer.antt and of specs/Telling.antt, which says what the observer was told.
#![tactic(auto)]

mod answer;
mod call;

pub use call::ctm;
