//! Writes a network file again without comments, blank lines and quotes, in format 3 where it is in format 3 and else in
//! format 2. The network stays the same.
#![tactic(auto)]

mod conversion;

pub use conversion::convert;
