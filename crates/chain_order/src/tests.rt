ghost use Rattle.std.specs.Prelude.{◌≡◌, ◌<◌, ◌^◌, length};

use crate::Order;
use network_file::{MOST_BYTES, Net};
use no_memory::NoMemory;
use std::alloc::Global;
use std::test::Fail;

// A road from a gate to an exit and a ring, with cells that stand in the file in another order than links join them; one
// link alone leads to the next cell of the file.
const ROADS: &str =
    "ctm,1; steps,9; exit,d,1; road,b,4,1,1,2,0; road,c,4,1,1,2,0; road,r,4,1,1,2,1; gate,a,2,1; \
road,t,4,1,1,2,0; road,s,4,1,1,2,0; link,b,c; link,r,s; link,c,d; link,t,r; link,a,b; link,s,t";

const ALL: [u32; 6] = [0, 1, 2, 3, 4, 5];

// Whether these cells are placed so by all connectors.
fn are_placed(
    alloc: Global,
    net: &Net,
    cells: &[u32],
    placed: &[u32],
    places: &[u32],
) -> Result<bool, NoMemory>
    requires connectors { length net.now.connectors ≡ 6 }
    requires few { length cells.now < 2 ^ 32 }
{
    let order = Order::of(alloc, net, cells, &ALL)?;
    Ok(order.placed() == placed && order.places() == places)
}

#[test]
fn cells_of_chains_lie_side_by_side_and_rings_behind_them(rt: HostRuntime) -> Result<(), Fail> {
    let text = ROADS.replace(rt.alloc(), "; ", "\n")?;
    assert!(rt; text.len() <= MOST_BYTES);
    let net = Net::read(rt.alloc(), text.as_bytes())?;
    assert!(rt; net.connectors.len() == 6);
    assert!(rt;
        are_placed(
            rt.alloc(),
            &net,
            &[0, 1, 2, 3, 4, 5, 6],
            &[4, 1, 2, 0, 3, 6, 5],
            &[3, 1, 2, 4, 0, 6, 5]
        )?,
        "all"
    );
    assert!(rt;
        are_placed(
            rt.alloc(),
            &net,
            &[1, 3, 4, 6],
            &[3, 6, 4, 1],
            &[3, 0, 2, 1]
        )?,
        "some"
    );
    Ok(())
}
