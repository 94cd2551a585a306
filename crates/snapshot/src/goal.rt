ghost use Rattle.std.specs.Prelude.{◌≡◌, ◌≤◌};
ghost use Rattle.snapshot.specs.Shots.{goal_of};

use network_file::Net;

/// Goal `i` of a run that is divided evenly into so many parts, where part `i` ends: `i·steps/parts`, rounded down to a whole
/// step. Goal 0 is step 0, and goal `parts` is the last step.
pub fn goal_at(net: &Net, parts: u32, i: u32) -> u64
    requires some { 1 ≤ parts }
    requires one_of { i ≤ parts }
    ensures goal { result ≡ goal_of net.now.steps parts i }
    ensures in_time { result ≤ net.now.steps }
    ensures last { i ≡ parts → result ≡ net.now.steps }
{
    u64::from(i) * net.steps / u64::from(parts)
}
