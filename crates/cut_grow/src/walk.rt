ghost use Rattle.std.specs.Prelude.{◌≡◌, IfOk, length};
ghost use Rattle.cut_grow.specs.Orders.{IsPermutation};
ghost use Rattle.cut_grow.specs.Walk.{walk_to};

use crate::joints::Joints;
use crate::lowest::first_free;
use crate::open_cells::first_open;
use network_file::Net;
use no_memory::NoMemory;
use std::alloc::Global;

/// The walk over all cells of a network.
pub(crate) fn walk(alloc: Global, net: &Net) -> Result<Vec<u32>, NoMemory>
    ensures walk { IfOk result (λ order. order.items ≡ walk_to net.now (length net.now.cells)) }
    ensures order { IfOk result (λ order. IsPermutation (length net.now.cells) order.items) }
{
    let connectors = net.connectors.as_slice();
    let cells = net.cells.len() as u32;
    let joints = Joints::of(alloc, connectors, cells)?;
    let mut placed = vec![in alloc; false; cells as usize]?;
    let mut order = Vec::new(alloc);
    let mut place = 0;
    let mut lowest = 0;
    for _ in 0..cells {
        place = first_open(connectors, &joints, &placed, &order, place);
        lowest = first_free(&placed, lowest);
        let next = if place < order.len() {
            joints.least_beside(connectors, &placed, order[place])
        } else {
            lowest
        };
        order.push(next)?;
        placed[next as usize] = true;
    }
    Ok(order)
}
