ghost use Rattle.std.specs.Prelude.{◌+◌, ◌<◌, ◌≤◌, ◌^◌};

use region_slots::Pauses;

/// Lets others go on once where turns were in vain: whoever holds what they wait for may be waiting for a processor.
pub fn pause_where(pauses: &mut Pauses, vain: bool)
    requires { pauses.old + 1 < 2 ^ 64 }
    ensures { pauses.new ≤ pauses.old + 1 }
{
    if vain {
        pauses.pause(1);
    }
}
