//! Where bytes come from and where they go.
//!
//! A [`Source`] gives bytes piece by piece and a [`Sink`] takes them. Either may fail, and each counts
//! its faults, so that a caller can answer for a failure only where that count rose. Sources and sinks
//! in memory tell their bytes. The adapters over std's readers and writers pass on each byte that their
//! reader or writer tells; the real streams tell none.
//!
//! - `read_up_to` reads a whole source, `write_all` writes a whole text.
//! - `MemSource` and `MemSink` fail at the calls that they were told to; `SureSource` and `SureSink` never.
//! - `StdSource` and `StdSink` stand over a `Read` and a `Write`.
#![tactic(auto)]

mod calls;
mod mem_sink;
mod mem_source;
mod reading;
mod sink;
mod source;
mod std_sink;
mod std_source;
mod sure_sink;
mod sure_source;
mod unread;
mod writing;

pub use mem_sink::MemSink;
pub use mem_source::MemSource;
pub use reading::{ReadEnd, read_up_to};
pub use sink::{Sink, Wrote};
pub use source::{Piece, Source};
pub use std_sink::StdSink;
pub use std_source::StdSource;
pub use sure_sink::SureSink;
pub use sure_source::SureSource;
pub use writing::{Written, write_all};
