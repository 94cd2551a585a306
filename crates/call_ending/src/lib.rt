//! How a call of a program of this repository ends: with its text on standard output, or with one line on standard error
//! that says why there is none, and with a [`Status`] in either case (docs/FORMAT.md, "Exit status and standard error").
//!
//! - A call that has no text to write says why by a [`Refusal`]: the answer itself has a cause and a line, or a read, a
//!   write or a request for memory failed on the way.
//! - [`end`] writes the text, or the line of the refusal, and gives the status. `tell` writes the line alone.
//! - specs/Ending.antt says status by status how a call ends (`HasEnded`), over a record of the call (specs/Calls.antt); contracts of
//!   whole calls cite both.
//!
//! To give a program a status of its own, add it to [`Status`] and to the definition of its number (specs/Status.antt). If
//! an answer can end with it, add it to [`Cause`] and to the definition of that (specs/Refusing.antt) too.
#![tactic(auto)]

mod cause;
mod ending;
mod refusal;
mod status;

pub use cause::Cause;
pub use ending::{end, tell};
pub use refusal::{Line, Refusal};
pub use status::Status;
