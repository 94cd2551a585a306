ghost use Rattle.std.specs.Prelude.{◌≡◌, ◌≢◌, ◌≤◌, IfOk, length, min};
ghost use Rattle.region_cut.specs.Cuttings.{even_cutting};
ghost use Rattle.network_file.specs.declared.limits.TheConstants.{MOST_REGIONS};

use crate::cut::{Cut, copied};
use crate::layout::Layout;
use network_file::Net;
use no_memory::NoMemory;
use std::alloc::Global;

/// The cutting of a run: the file's where it has one, and else the even one into so many regions, or as many as there
/// are cells.
pub fn cutting(alloc: Global, net: &Net, regions: u32) -> Result<Cut, NoMemory>
    requires some { 1 ≤ regions }
    requires few { regions ≤ MOST_REGIONS }
    ensures one_each { IfOk result (λ cut. length cut ≡ length net.now.cells) }
    ensures own { length net.now.regions ≢ 0 → IfOk result (λ cut. cut ≡ net.now.regions) }
    ensures even { length net.now.regions ≡ 0 → IfOk result (λ cut. cut ≡ even_cutting (length net.now.cells) (min regions (length net.now.cells))) }
{
    let cells = net.cells.len() as u32;
    if net.regions.is_empty() {
        return Cut::even(alloc, net, regions.min(cells));
    }
    let own = copied(alloc, &net.regions)?;
    Ok(Cut::known(own))
}

/// A network in the regions that its file gives, or else in so many of nearly equal size.
pub fn charted(alloc: Global, net: &Net, regions: u32) -> Result<Layout<'_>, NoMemory>
    requires some { 1 ≤ regions }
    requires few { regions ≤ MOST_REGIONS }
    ensures network { IfOk result (λ layout. layout.net ≡ net.now) }
    ensures own { length net.now.regions ≢ 0 → IfOk result (λ layout. layout.chart.cut ≡ net.now.regions) }
    ensures even { length net.now.regions ≡ 0 → IfOk result (λ layout. layout.chart.cut ≡ even_cutting (length net.now.cells) (min regions (length net.now.cells))) }
{
    let cut = cutting(alloc, net, regions)?;
    Layout::new(alloc, net, cut)
}
