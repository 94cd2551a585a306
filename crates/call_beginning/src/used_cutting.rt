ghost use Rattle.std.specs.Prelude.{◌≡◌, ◌≤◌, IfOk, length, min};
ghost use Rattle.command_words.specs.Words.{IsInRange};
ghost use Rattle.network_file.specs.declared.limits.TheConstants.{MOST_REGIONS};
ghost use Rattle.cut_grow.specs.Grown.{IsGrown};
ghost use Rattle.call_beginning.specs.UsedCutting.{IsCuttingOf};

use crate::used_regions::regions_wanted;
use command_words::{CutKind, Request};
use cut_grow::grow;
use network_file::Net;
use no_memory::NoMemory;
use region_cut::{Cut, Layout, charted};
use std::alloc::Global;

/// A network in the regions that its file gives, or else in even or in grown ones, as is asked for.
pub fn layout_asked(alloc: Global, net: &Net, request: Request) -> Result<Layout<'_>, NoMemory>
    requires in_range { IsInRange request }
    ensures network { IfOk result (λ layout. layout.net ≡ net.now) }
    ensures cutting { IfOk result (λ layout. IsCuttingOf net.now request layout.chart.cut) }
{
    let regions = regions_wanted(net, request);
    match request.cut {
        CutKind::Grown if net.regions.is_empty() => {
            let cut = grown_cut(alloc, net, regions)?;
            Layout::new(alloc, net, cut)
        }
        _ => charted(alloc, net, regions),
    }
}

// A grown cutting into so many regions, or as many as there are cells.
fn grown_cut(alloc: Global, net: &Net, regions: u32) -> Result<Cut, NoMemory>
    requires some { 1 ≤ regions }
    requires few { regions ≤ MOST_REGIONS }
    ensures grown { IfOk result (λ cut. IsGrown net.now (min regions (length net.now.cells)) cut) }
    ensures one_each { IfOk result (λ cut. length cut ≡ length net.now.cells) }
{
    let list = grow(alloc, net, regions.min(net.cells.len() as u32))?;
    Ok(Cut::known(list))
}
