use call_ending::Status;
use ctm_ports::{SureSink, SureSource};
use region_slots::Observer;
use std::alloc::{AllocError, Global};
use std::sync::Wait;
use std::thread::Threads;
use wait_call::ctm_wait;

// How a call ended, and what it wrote.
#[derive(Debug, Drop)]
pub(crate) struct Ended {
    pub(crate) status: Status,
    pub(crate) out: SureSink,
    pub(crate) err: SureSink,
}

// A call with these words past an observer, over ports that never fail.
pub(crate) fn call_past<R: Threads + Wait + Sync, W: Observer>(
    rt: &R,
    alloc: Global,
    words: &[&str],
    input: &[u8],
    observer: &W,
) -> Result<Ended, AllocError> {
    let mut given = Vec::new(alloc);
    for word in words {
        given.push(String::from_str(alloc, word)?)?;
    }
    let mut source = SureSource::new(input.to_vec(alloc)?);
    let mut out = SureSink::new(alloc);
    let mut err = SureSink::new(alloc);
    let status = ctm_wait(rt, alloc, &given, &mut source, &mut out, &mut err, observer);
    Ok(Ended { status, out, err })
}
