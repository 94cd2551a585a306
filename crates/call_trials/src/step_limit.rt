ghost use Rattle.std.specs.Prelude.{◌≡◌};
ghost use Rattle.call_beginning.specs.Words.{requested};
ghost use Rattle.call_ending.specs.declared.status.Status.TheVariants as status;
ghost use Rattle.call_trials.specs.Within.{RunsWithin};

use crate::calling::Ended;
use ctm_call::ctm;
use ctm_ports::{SureSink, SureSource};
use region_slots::{Freed, Observer, Taken, Watched, Watching};
use std::alloc::Global;
use std::process::Abort;
use std::thread::Threads;

// An observer that ends the process where it is told of a region that has made so many steps. So what it was told of lies below
// that number.
#[derive(Drop)]
pub(crate) struct StepLimit<'r, R: Abort> {
    rt: &'r R,
    most: u64,
}

impl<'r, R: Abort + Sync> Observer for StepLimit<'r, R> {
    ghost use Rattle.std.specs.Prelude.{⊤, ◌<◌};

    // The step lies below the limit.
    ghost told_held = { λ observer run region step. step < observer.most };

    ghost told_freed = { λ observer run region step. ⊤ };

    ghost told_watching = { λ observer run seen. ⊤ };

    ghost told_watched = { λ observer run seen shot. ⊤ };

    fn held(&self, taken: Taken) {
        assert!(self.rt; taken.step() < self.most, "a step past the limit");
    }

    fn freed(&self, freed: Freed) {}

    fn watching(&self, watching: Watching) {}

    fn watched(&self, watched: Watched) {}
}

// A call with these words over a source, whose observer is told of no step from this number on. Where `run` is done, the network
// has no more steps.
pub(crate) fn call_within<R: Abort + Threads + Sync>(
    rt: &R,
    alloc: Global,
    words: &[String],
    mut source: SureSource,
    most: u64,
) -> Ended<SureSink>
    ensures { result.status ≡ status.Done → RunsWithin most (requested words.now) source }
{
    let mut out = SureSink::new(alloc);
    let mut err = SureSink::new(alloc);
    let limit = StepLimit { rt, most };
    let status = ctm(rt, alloc, words, &mut source, &mut out, &mut err, &limit);
    Ended { status, out, err }
}
