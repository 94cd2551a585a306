ghost use Rattle.std.specs.Prelude.{◌≡◌, ◌<◌, All, length};
ghost use Rattle.network_file.specs.Connectors.{cells_of};
ghost use Rattle.region_cut.specs.Joins.{crosses};
ghost use Rattle.cut_grow.specs.CutConnectors.{cuts};

use network_file::{Connector, Net};
use region_cut::three_cells;

/// How many connectors of a network touch more than one region, where the list has the region of each cell.
pub fn cut_count(net: &Net, list: &[u32]) -> u32
    requires { length list.now ≡ length net.now.cells }
    ensures { result ≡ cuts list.now net.now }
{
    let mut count = 0;
    for k in 0..net.connectors.len() {
        if is_cut(list, net.connectors[k]) {
            count += 1;
        }
    }
    count
}

// Whether a connector touches more than one region.
fn is_cut(list: &[u32], connector: Connector) -> bool
    requires { All (λ i. i < length list.now) (cells_of connector) }
    ensures { result ≡ crosses list.now connector }
{
    let [a, b, c] = three_cells(connector);
    let region = list[a as usize];
    region != list[b as usize] || region != list[c as usize]
}
