ghost use Rattle.std.specs.Prelude.{◌≡◌, ◌<◌, ◌≤◌, All, IfOk, length};
ghost use Rattle.network_file.specs.declared.limits.TheConstants.{MOST_REGIONS};
ghost use Rattle.region_cut.specs.Chart.{IsChart, IsPlaced, chart_of, list_at};
ghost use Rattle.region_cut.specs.Cuttings.{region_at, region_count};

use crate::chart::Chart;
use crate::cut::Cut;
use crate::halo::Halo;
use network_file::{MOST_REGIONS, Net};
use no_memory::NoMemory;
use std::alloc::Global;
use std::marker::Model;

/// A network that is cut: for each region its cells, its neighbours, its border cells, the connectors that touch it, and its
/// halo. Each list of a region is ascending, without repeats.
#[derive(Drop)]
pub struct Layout<'n> {
    net: &'n Net,
    chart: Chart,
}

impl<'n> Model for Layout<'n> {
    ghost use Rattle.std.specs.Prelude.{◌≡◌, length};
    ghost use Rattle.region_cut.specs.Chart.{chart_of};
    ghost use Rattle.region_cut.specs.Layout.{LayoutValue};

    ghost Value = { LayoutValue };

    ghost view = { λ layout. record { net = layout.net.now; chart = layout.chart } };

    ghost invariant = { λ layout. (layout.chart ≡ chart_of layout.net.now layout.chart.cut) × (length layout.chart.cut ≡ length layout.net.now.cells) };
}

impl<'n> Layout<'n> {
    /// A network that is cut so. Where memory is refused the cutting is gone.
    pub fn new(alloc: Global, net: &'n Net, cut: Cut) -> Result<Layout<'n>, NoMemory>
        requires one_each { length cut ≡ length net.now.cells }
        ensures network { IfOk result (λ layout. layout.net ≡ net.now) }
        ensures cut { IfOk result (λ layout. layout.chart.cut ≡ cut) }
    {
        let chart = Chart::new(alloc, net, cut)?;
        Ok(Layout { net, chart })
    }

    /// A network with its chart.
    pub fn of(net: &'n Net, chart: Chart) -> Layout<'n>
        requires charted { chart ≡ chart_of net.now chart.cut }
        requires one_each { length chart.cut ≡ length net.now.cells }
        ensures { result ≡ record { net = net.now; chart = chart } }
    {
        Layout { net, chart }
    }

    /// The network.
    pub fn net(&self) -> &'n Net
        ensures network { result.now ≡ self.now.net }
        ensures charted { self.now.chart ≡ chart_of self.now.net self.now.chart.cut }
        ensures one_each { length self.now.chart.cut ≡ length self.now.net.cells }
    {
        self.net
    }

    /// How many regions there are.
    pub fn regions(&self) -> u32
        ensures count { result ≡ region_count self.now.chart.cut }
        ensures few { result ≤ MOST_REGIONS }
        ensures sound { IsChart self.now.chart }
    {
        self.chart.regions()
    }

    /// The region of a cell.
    pub fn region_of(&self, cell: u32) -> u32
        requires { cell < length self.now.chart.cut }
        ensures { result ≡ region_at self.now.chart.cut cell }
    {
        self.chart.region_of(cell)
    }

    /// The cells of region `r`.
    pub fn cells(&self, r: u32) -> &[u32]
        requires { r < region_count self.now.chart.cut }
        ensures list { result.now ≡ list_at self.now.chart.cells r }
        ensures there { All (λ i. i < length self.now.chart.cut) result.now }
    {
        self.chart.cells(r)
    }

    /// The neighbours of region `r`: a connector touches cells of both.
    pub fn neighbours(&self, r: u32) -> &[u32]
        requires { r < region_count self.now.chart.cut }
        ensures list { result.now ≡ list_at self.now.chart.neighbours r }
        ensures there { All (λ q. q < region_count self.now.chart.cut) result.now }
    {
        self.chart.neighbours(r)
    }

    /// The cells of region `r` that share a connector with another region.
    pub fn border(&self, r: u32) -> &[u32]
        requires { r < region_count self.now.chart.cut }
        ensures list { result.now ≡ list_at self.now.chart.border r }
        ensures there { All (λ i. i < length self.now.chart.cut) result.now }
    {
        self.chart.border(r)
    }

    /// The connectors that touch a cell of region `r`.
    pub fn connectors(&self, r: u32) -> &[u32]
        requires { r < region_count self.now.chart.cut }
        ensures { result.now ≡ list_at self.now.chart.connectors r }
    {
        self.chart.connectors(r)
    }

    /// The cells of other regions that a connector of region `r` touches, in the order of their numbers.
    pub fn halo(&self, r: u32) -> &[Halo]
        requires { r < region_count self.now.chart.cut }
        ensures list { result.now ≡ list_at self.now.chart.halo r }
        ensures there { All (IsPlaced self.now.chart) result.now }
    {
        self.chart.halo(r)
    }

    /// Its chart alone.
    pub fn into_chart(self) -> Chart
        ensures chart { result ≡ self.entry.chart }
        ensures charted { result ≡ chart_of self.entry.net result.cut }
        ensures one_each { length result.cut ≡ length self.entry.net.cells }
    {
        self.chart
    }
}
