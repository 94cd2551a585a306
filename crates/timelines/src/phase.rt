ghost use Rattle.std.specs.Prelude.{◌≡◌, ◌≤◌, ◌<◌, ◌+◌, ◌-◌, ◌%◌, ℕ, Some};
ghost use Rattle.step_plan.specs.Green.{is_green_by};
ghost use Rattle.timelines.specs.Timelines.{IsSteady};

use crate::now::Now;
use step_plan::{MOST_STEPS, Signal};

/// Whether a cell with this signal, or with none, may send in step `t`.
pub(crate) fn light(signal: Option<Signal>, t: u64) -> Now<bool>
    requires in_time { t ≤ MOST_STEPS }
    ensures green { result.value ≡ is_green_by signal t }
    ensures steady { IsSteady (is_green_by signal) t result.until }
    ensures later { t < result.until }
{
    match signal {
        None => Now {
            value: true,
            until: u64::MAX,
        },
        Some(signal) => phase(signal, t),
    }
}

// The light of a signal, up to where its green begins or ends, or its cycle does.
fn phase(signal: Signal, t: u64) -> Now<bool>
    requires in_time { t ≤ MOST_STEPS }
    ensures green { result.value ≡ is_green_by (Some signal) t }
    ensures steady { IsSteady (is_green_by (Some signal)) t result.until }
    ensures later { t < result.until }
{
    let (cycle, from, to) = (
        u64::from(signal.cycle),
        u64::from(signal.from),
        u64::from(signal.to),
    );
    let place = (t + u64::from(signal.offset)) % cycle;
    let end = if place < from {
        from.min(cycle)
    } else if place < to {
        to.min(cycle)
    } else {
        cycle
    };
    Now {
        value: place >= from && place < to,
        until: t + end - place,
    }
}
