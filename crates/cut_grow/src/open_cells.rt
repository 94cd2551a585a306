ghost use Rattle.std.specs.Prelude.{◌≡◌, ◌<◌, ◌≤◌, ◌^◌, ℕ, All, length, slice_index};
ghost use Rattle.cut_grow.specs.Sides.{AreJoints, AreThere, IsClosed, IsOpen};

use crate::joints::Joints;
use network_file::Connector;

/// The first place in the order, from one on, of a cell that shares a connector with a cell not placed, or the order's
/// length.
pub(crate) fn first_open(
    connectors: &[Connector],
    joints: &Joints,
    placed: &[bool],
    order: &[u32],
    from: usize,
) -> usize
    requires few { length placed.now < 2 ^ 32 }
    requires there { AreThere (length placed.now) connectors.now }
    requires joints { AreJoints (length placed.now) connectors.now joints.now.out.items joints.now.into.items }
    requires order { All (λ i. i < length placed.now) order.now }
    requires from { from ≤ length order.now }
    ensures within { result ≤ length order.now }
    ensures closed { (k : ℕ) → from ≤ k → k < result → IsClosed connectors.now placed.now (slice_index order.now k) }
    ensures open { result < length order.now → IsOpen connectors.now placed.now (slice_index order.now result) }
{
    for place in from..order.len() {
        let least = joints.least_beside(connectors, placed, order[place]);
        if (least as usize) < placed.len() {
            return place;
        }
    }
    order.len()
}
