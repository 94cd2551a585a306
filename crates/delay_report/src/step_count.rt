ghost use Rattle.std.specs.Prelude.{◌≡◌, ◌+◌, ◌≤◌};
ghost use Rattle.delay_report.specs.Report.{recorded_count};

use network_file::Net;

/// How many steps of a run are recorded: 0, `every`, twice `every` and so on, and the last one; none where `every` is 0.
pub fn recorded_steps(net: &Net, every: u64) -> u64
    ensures count { result ≡ recorded_count net.now.steps every }
    ensures few { result ≤ net.now.steps + 1 }
{
    if every == 0 {
        0
    } else {
        net.steps.div_ceil(every) + 1
    }
}
