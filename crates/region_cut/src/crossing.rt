ghost use Rattle.std.specs.Prelude.{◌≡◌, ◌<◌, length};
ghost use Rattle.network_file.specs.Numbered.{connector_at};
ghost use Rattle.region_cut.specs.Joins.{crosses};

use crate::connector_cells::three_cells;
use crate::layout::Layout;

/// Whether connector `k` touches cells of more than one region.
pub fn crosses(layout: &Layout, k: u32) -> bool
    requires has_connector { k < length layout.now.net.connectors }
    ensures { result ≡ crosses layout.now.chart.cut (connector_at layout.now.net.connectors k) }
{
    let [a, b, c] = three_cells(layout.net().connectors[k as usize]);
    let region = layout.region_of(a);
    region != layout.region_of(b) || region != layout.region_of(c)
}
