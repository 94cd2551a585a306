//! Road traffic by Daganzo's cell transmission model (docs/MODEL.md): what a caller of the crates imports.
//!
//! A [`Net`] is read from a file, by `Net::read(alloc, file)?`. [`charted`] cuts it into regions, or [`grow`] along its
//! roads. Workers take it through its steps: a [`Run`] has come to the last one, a [`Moment`] near another. A moment is
//! saved, and [`load`] reads where a run goes on. Amounts are in parts, a million to a vehicle. What comes of a run is that
//! of the model's recurrences, whatever the regions and workers.
//!
//! Where do vehicles wait longest, and how long?
//!
//! ```text
//! let run = Run::of(rt, alloc, charted(alloc, net, 16)?, 0, 4)?;
//! let rows = run.rows(alloc)?;
//! let worst = rows.iter().enumerate().max_by_key(|(_, row)| row.wait);
//! Ok(worst.map(|(cell, row)| (cell, row.wait)))
//! ```
//!
//! When does a cell first hold so many parts?
//!
//! ```text
//! let run = Run::of(rt, alloc, charted(alloc, net, 16)?, 1, 4)?;
//! for step in 0..run.noted_steps() {
//!     let notes = run.notes(alloc, step)?;
//!     if notes.get(cell).is_some_and(|note| note.n >= parts) {
//!         return Ok(Some(step));
//!     }
//! }
//! Ok(None)
//! ```
//!
//! What is saved if things change, as in another file, four steps after a step or later?
//!
//! ```text
//! let moment = Moment::near(rt, alloc, charted(alloc, net, 16)?, step, 4)?;
//! moment.save(alloc, other)
//! ```
//!
//! What is the delay then?
//!
//! ```text
//! let Saved { net, chart, start } = load(alloc, text)?;
//! let run = Run::resumed(rt, alloc, Layout::of(&net, chart), start, 4)?;
//! Ok(run.delay(alloc)?)
//! ```
//!
//! These are functions of `questions`, with their answers for a small network. The program `worst_cells` asks the first from
//! standard input.
//!
//! More is passed on for those who need it: plans ([`Pieces`], [`choose`]), shots as text ([`watched_regions`]), an
//! [`Observer`] who is told of each step, sources and sinks ([`Source`], [`Sink`]), and how a program ends ([`end`]).
//! specs/Lib.antt passes on the definitions that contracts cite.
#![tactic(auto)]

mod moment;
#[cfg(test)]
mod questions;
mod run;

pub use call_ending::{Cause, Line, Refusal, Status, end};
pub use ctm_ports::{
    MemSink, MemSource, ReadEnd, Sink, Source, StdSink, StdSource, Written, read_up_to, write_all,
};
pub use cut_grow::{cut_count, grow};
pub use delay_report::put_last_totals;
pub use flow_ledger::{Books, total_delay};
pub use flow_model::Row;
pub use line_fields::{put_amount, put_count, put_row_fields, put_signed};
pub use moment::Moment;
pub use network_file::{
    Cell, Code, Connector, Kind, MOST_BYTES, MOST_REGIONS, Name, Net, NetFault,
};
pub use network_run::{Watched, last_regions, regions_from, watched_regions};
pub use no_memory::{NoMemory, Refused};
pub use plan_choice::{Choice, Pieces, PlanCount, choose};
pub use region_cut::{Chart, Cut, CutFault, Layout, charted};
pub use region_slots::{NoObserver, Observer};
pub use region_step::{Note, Region, Regions, Setup, Start};
pub use run::Run;
pub use saved_run::{LoadFault, Saved, even_start, load};
pub use snapshot::ShotRoom;
