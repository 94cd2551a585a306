//! The program `ctm_wait`: the call of `wait_call` over the real streams (docs/FORMAT.md, "A run whose workers wait").
#![tactic(auto)]

use call_beginning::given_words;
use call_ending::{Refusal, tell};
use ctm_ports::{StdSink, StdSource};
use region_slots::NoObserver;
use std::process::ExitCode;
use wait_call::ctm_wait;

fn main(rt: HostRuntime) -> ExitCode {
    let mut source = StdSource::new(rt.stdin());
    let mut out = StdSink::new(rt.stdout());
    let mut err = StdSink::new(rt.stderr());
    let status = match given_words(&rt) {
        Ok(words) => ctm_wait(
            &rt,
            rt.alloc(),
            &words,
            &mut source,
            &mut out,
            &mut err,
            &NoObserver,
        ),
        Err(error) => tell(&Refusal::from(error), &mut err),
    };
    status.exit_code()
}
