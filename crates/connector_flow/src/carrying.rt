ghost use Rattle.std.specs.Prelude.{◌≡◌};
ghost use Rattle.connector_flow.specs.Flows.{carried_by, received};

use crate::limits::Limits;
use crate::rule::Rule;
use crate::space::Space;
use flow_model::Flow;

/// What a connector carries where its cells hold `n` parts, within these limits and the spaces of the second cell and the
/// third.
#[inline(always)]
pub(crate) fn carried(
    rule: Rule,
    limits: Limits,
    second_space: Space,
    third_space: Space,
    n: [u64; 3],
) -> Flow
    ensures { result ≡ carried_by rule limits second_space third_space n }
{
    let sent = limits.first.min(n[0]);
    let weights = limits.weights;
    match rule {
        Rule::Linking => Flow::of_link(sent, received(limits.second, second_space, n[1])),
        Rule::Merging => {
            let room = received(limits.third, third_space, n[2]);
            Flow::of_merge_by_share(
                sent,
                limits.second.min(n[1]),
                room,
                weights.first_share(room),
            )
        }
        Rule::Diverging => Flow::of_diverge_by_whole(
            weights.whole(sent),
            received(limits.second, second_space, n[1]),
            received(limits.third, third_space, n[2]),
            weights.first(),
            weights.second(),
        ),
    }
}

// What a cell that holds `n` parts receives of so much at most. One that holds more than its space receives nothing.
#[inline(always)]
fn received(most: u64, space: Space, n: u64) -> u64
    ensures { result ≡ received most space n }
{
    if n > space.storage {
        return 0;
    }
    most.min(space.let_in(n))
}
