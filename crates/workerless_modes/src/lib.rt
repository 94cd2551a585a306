//! The modes without workers of a field: `check`, `convert`, `cut` and `choose`. Each has a file here and its definition of
//! the same name in specs/, and answers an input with the text, or says why there is none.
//!
//! A choice runs its networks in one region each.
#![tactic(auto)]

mod check_mode;
mod choose_mode;
mod convert_mode;
mod cut_mode;

pub use check_mode::check_text;
pub use choose_mode::choose_text;
pub use convert_mode::convert_text;
pub use cut_mode::cut_text;
