//! `worst_cells < FILE` tells the three cells of a network in which most delay arises: the library `ctm` as another program
//! uses it. Four workers take the network through its steps in sixteen regions.
#![tactic(auto)]

mod worst;

use ctm::{
    Cause, Line, MOST_BYTES, Net, NoMemory, ReadEnd, Refusal, Refused, Run, Source, StdSink,
    StdSource, charted, end, read_up_to,
};
use std::alloc::Global;
use std::process::ExitCode;
use std::thread::Threads;
use worst::worst_cells;

/// The most lines that are written.
const CELLS: usize = 3;

fn main(rt: HostRuntime) -> ExitCode {
    let mut source = StdSource::new(rt.stdin());
    let mut out = StdSink::new(rt.stdout());
    let mut err = StdSink::new(rt.stderr());
    let answer = answer(&rt, rt.alloc(), &mut source);
    end(answer, &mut out, &mut err).exit_code()
}

// The lines for the network that the source gives, or why there are none.
fn answer<R: Threads + Sync, S: Source>(
    rt: &R,
    alloc: Global,
    source: &mut S,
) -> Result<Vec<u8>, Refusal> {
    match read_up_to(alloc, source, MOST_BYTES) {
        ReadEnd::Whole(bytes) => match Net::read(alloc, &bytes) {
            Ok(net) => Ok(lines(rt, alloc, &net)?),
            Err(Refused::Fault(_)) => Err(told(
                Cause::Network,
                b"worst_cells: no network; ctm check tells why\n",
            )),
            Err(Refused::NoMemory) => Err(Refusal::NoMemory),
        },
        ReadEnd::TooLong => Err(told(Cause::TooLarge, b"worst_cells: too large\n")),
        ReadEnd::Failed => Err(Refusal::ReadFault),
        ReadEnd::NoMemory => Err(Refusal::NoMemory),
    }
}

fn told(cause: Cause, line: &'static [u8]) -> Refusal {
    Refusal::Told(cause, Line::Fixed(line))
}

// The lines for a network: its worst cells after all steps.
fn lines<R: Threads + Sync>(rt: &R, alloc: Global, net: &Net) -> Result<Vec<u8>, NoMemory> {
    let run = Run::of(rt, alloc, charted(alloc, net, 16)?, 0, 4)?;
    worst_cells(alloc, &net.cells, &run.rows(alloc)?, CELLS)
}
