ghost use Rattle.std.specs.Prelude.{◌<◌, IfOk};
ghost use Rattle.region_cut.specs.Chart.{list_at};
ghost use Rattle.region_cut.specs.Cuttings.{region_count};
ghost use Rattle.plain_region.specs.RegionConnectors.{AreRegionConnectors};
ghost use Rattle.region_step.specs.Opened.{halo_cells};
ghost use Rattle.region_step.specs.Opening.{ArePlaces};
ghost use Rattle.std.specs.Prelude.{◌≡◌};

use crate::region_connector::{RegionConnector, connectors_of};
use no_memory::NoMemory;
use region_cut::Layout;
use region_step::{border_places, halo_cells};
use std::alloc::Global;

/// How a region's cells hang together: what is found out once, when it is opened.
#[derive(Debug, Drop)]
pub(crate) struct Wiring {
    pub(crate) connectors: Vec<RegionConnector>,
    // The place of each border cell among the region's cells.
    pub(crate) border: Vec<u32>,
}

impl Wiring {
    /// The wiring of region `r`.
    pub(crate) fn new(alloc: Global, layout: &Layout, r: u32) -> Result<Wiring, NoMemory>
        requires there { r < region_count layout.now.chart.cut }
        ensures connectors { IfOk result (λ wiring. AreRegionConnectors layout.now.net (list_at layout.now.chart.cells r) (halo_cells layout.now.chart r)
            (list_at layout.now.chart.connectors r) wiring.connectors.items) }
        ensures border { IfOk result (λ wiring. ArePlaces (list_at layout.now.chart.cells r) (list_at layout.now.chart.border r) wiring.border.items) }
    {
        let net = layout.net();
        let _cells = &net.cells;
        let cells = layout.cells(r);
        let halo = halo_cells(alloc, layout.halo(r))?;
        let connectors = connectors_of(alloc, net, layout.connectors(r), cells, &halo)?;
        let border = border_places(alloc, layout.border(r), cells)?;
        Ok(Wiring { connectors, border })
    }
}
