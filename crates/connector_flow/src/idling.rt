ghost use Rattle.std.specs.Prelude.{◌≡◌, ◌≤◌, ◌+◌, IsTrue};
ghost use Rattle.connector_flow.specs.Flows.{carried_by, no_flow};
ghost use Rattle.connector_flow.specs.declared.limits.Limits.{Limits};
ghost use Rattle.connector_flow.specs.declared.space.Space.{Space};

use crate::rule::Rule;
use flow_model::Flow;

/// Whether nothing is carried.
pub(crate) fn carries_nothing(flow: Flow) -> bool
    ensures { IsTrue result → flow ≡ no_flow }
{
    flow.out1 == 0 && flow.out2 == 0 && flow.in1 == 0 && flow.in2 == 0
}

/// Whether cells that hold `n` parts have nothing to send, whatever their capacities and lights: none for a link or a
/// merge, and for a diverge less than a part for each share, of which there are at least so many.
pub(crate) fn sends_nothing(rule: Rule, shares: u64, n: [u64; 3]) -> bool
    ensures { IsTrue result → (limits : Limits) (second_space third_space : Space) → shares ≤ limits.weights.0 + limits.weights.1 →
        carried_by rule limits second_space third_space n ≡ no_flow }
{
    match rule {
        Rule::Linking => n[0] == 0,
        Rule::Merging => n[0] == 0 && n[1] == 0,
        Rule::Diverging => n[0] < shares,
    }
}
