ghost use Rattle.std.specs.Prelude.{◌≡◌, ◌<◌, ◌≤◌, All, IfOk, length};
ghost use Rattle.network_file.specs.declared.limits.TheConstants.{MOST_REGIONS};
ghost use Rattle.region_cut.specs.Chart.{IsChart, IsPlaced, chart_of, list_at};
ghost use Rattle.region_cut.specs.Cuttings.{region_at, region_count};

use crate::border::border_by_region;
use crate::cell_lists::cells_by_region;
use crate::connector_lists::connectors_by_region;
use crate::cut::Cut;
use crate::halo::Halo;
use crate::halo_lists::halo_by_region;
use crate::lists::Lists;
use crate::met::met_by_region;
use crate::neighbours::neighbours_by_region;
use network_file::{MOST_REGIONS, Net};
use no_memory::NoMemory;
use std::alloc::Global;
use std::marker::Model;

/// A cutting of a network, and what each region has to do with the others. Each list of a region is ascending,
/// without repeats.
#[derive(Drop)]
pub struct Chart {
    cut: Cut,
    cells: Lists<u32>,
    neighbours: Lists<u32>,
    border: Lists<u32>,
    connectors: Lists<u32>,
    halo: Lists<Halo>,
}

impl Model for Chart {
    ghost use Rattle.region_cut.specs.Chart.{ChartLists, IsChart};

    ghost Value = { ChartLists };

    ghost use Rattle.region_cut.specs.ChartView.{lists_in};

    ghost view = { lists_in };

    ghost invariant = { λ chart. IsChart (lists_in chart) };
}

impl Chart {
    /// The chart of a network that is cut so. Where memory is refused the cutting is gone.
    pub(crate) fn new(alloc: Global, net: &Net, cut: Cut) -> Result<Chart, NoMemory>
        requires { length cut ≡ length net.now.cells }
        ensures chart { IfOk result (λ chart. chart ≡ chart_of net.now cut) }
        ensures cut { IfOk result (λ chart. chart.cut ≡ cut) }
    {
        let _connectors = &net.connectors;
        let regions = cut.count();
        let of_cells = cut.regions();
        let cells = cells_by_region(alloc, of_cells, regions)?;
        let connectors = connectors_by_region(alloc, net, of_cells, regions)?;
        let met = met_by_region(alloc, net, of_cells, &connectors)?;
        let border = border_by_region(alloc, of_cells, &met)?;
        let halo = halo_by_region(alloc, of_cells, &met, &border)?;
        let neighbours = neighbours_by_region(alloc, &halo)?;
        Ok(Chart {
            cut,
            cells,
            neighbours,
            border,
            connectors,
            halo,
        })
    }

    /// How many regions there are.
    pub(crate) fn regions(&self) -> u32
        ensures count { result ≡ region_count self.now.cut }
        ensures few { result ≤ MOST_REGIONS }
        ensures sound { IsChart self.now }
    {
        self.cells.len() as u32
    }

    /// The region of a cell.
    pub(crate) fn region_of(&self, cell: u32) -> u32
        requires { cell < length self.now.cut }
        ensures { result ≡ region_at self.now.cut cell }
    {
        self.cut.regions()[cell as usize]
    }

    /// The cells of region `r`.
    pub(crate) fn cells(&self, r: u32) -> &[u32]
        requires { r < region_count self.now.cut }
        ensures list { result.now ≡ list_at self.now.cells r }
        ensures there { All (λ i. i < length self.now.cut) result.now }
    {
        self.cells.at(r)
    }

    /// The neighbours of region `r`: a connector touches cells of both.
    pub(crate) fn neighbours(&self, r: u32) -> &[u32]
        requires { r < region_count self.now.cut }
        ensures list { result.now ≡ list_at self.now.neighbours r }
        ensures there { All (λ q. q < region_count self.now.cut) result.now }
    {
        self.neighbours.at(r)
    }

    /// The cells of region `r` that share a connector with another region.
    pub(crate) fn border(&self, r: u32) -> &[u32]
        requires { r < region_count self.now.cut }
        ensures list { result.now ≡ list_at self.now.border r }
        ensures there { All (λ i. i < length self.now.cut) result.now }
    {
        self.border.at(r)
    }

    /// The connectors that touch a cell of region `r`.
    pub(crate) fn connectors(&self, r: u32) -> &[u32]
        requires { r < region_count self.now.cut }
        ensures { result.now ≡ list_at self.now.connectors r }
    {
        self.connectors.at(r)
    }

    /// The cells of other regions that a connector of region `r` touches, in the order of their numbers.
    pub(crate) fn halo(&self, r: u32) -> &[Halo]
        requires { r < region_count self.now.cut }
        ensures list { result.now ≡ list_at self.now.halo r }
        ensures there { All (IsPlaced self.now) result.now }
    {
        self.halo.at(r)
    }
}
