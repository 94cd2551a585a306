ghost use Rattle.std.specs.Prelude.{◌≡◌, ◌<◌, ◌^◌, IfOk, length};
ghost use Rattle.cut_grow.specs.Orders.{IsPermutation};
ghost use Rattle.cut_grow.specs.Spans.{ArePlaces};

use no_memory::NoMemory;
use std::alloc::Global;

/// The place of each cell in an order of all cells.
pub(crate) fn places(alloc: Global, order: &[u32]) -> Result<Vec<u32>, NoMemory>
    requires few { length order.now < 2 ^ 32 }
    requires order { IsPermutation (length order.now) order.now }
    ensures { IfOk result (λ places. ArePlaces (length order.now) order.now places.items) }
{
    let mut places = vec![in alloc; 0; order.len()]?;
    for place in 0..order.len() as u32 {
        places[order[place as usize] as usize] = place;
    }
    Ok(places)
}
