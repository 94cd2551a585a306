//! The words on the command line: which mode they name, and the value of each option.
//!
//! ```text
//! match read_words(alloc, &words) {
//!     Ok(request) => ..                    // the mode and the values of the options, each within its range
//!     Err(WordsRefusal::Refused) => ..     // the program doesn't take the words
//!     Err(WordsRefusal::NoMemory) => ..    // memory was refused, which says nothing of the words
//! }
//! ```
//!
//! `clap` reads the words as one simple command: the mode stands alone, and each option is a word behind `--` with one
//! value. It knows every option in every mode, so that a missing value or a repeated option is refused alike in each.
//! Then the table `Mode::takes` says which options a mode has, and the reading of a request which values an option has, and
//! which it has where the words don't give it. To give a mode one more option, add a line to the table and one to its
//! definition (specs/Modes.antt). A new option also needs a word (`Setting`, specs/Settings.antt), a line where `clap` learns
//! it, a field in `Request`, and a line in `reading` and in `request_in` (specs/Words.antt).
//! No other crate of the repository stands on `clap`.
#![tactic(auto)]

mod cut_kind;
mod known_words;
mod mode;
mod number;
mod reading;
mod refusal;
mod region_choice;
mod request;
mod setting;

pub use cut_kind::CutKind;
pub use mode::Mode;
pub use number::number_within;
pub use reading::read_words;
pub use refusal::WordsRefusal;
pub use region_choice::RegionChoice;
pub use request::Request;
pub use setting::Setting;
