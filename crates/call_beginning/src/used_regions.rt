ghost use Rattle.std.specs.Prelude.{◌≡◌, ◌≤◌, length};
ghost use Rattle.command_words.specs.Words.{IsInRange};
ghost use Rattle.network_file.specs.declared.limits.TheConstants.{MOST_REGIONS};
ghost use Rattle.command_words.specs.declared.region_choice.RegionChoice.TheVariants.{Auto};
ghost use Rattle.call_beginning.specs.UsedRegions.{regions_by, regions_wanted};

use command_words::{RegionChoice, Request};
use network_file::Net;

/// The most regions for each worker where their number is chosen: enough that none waits long for another.
const EACH: u32 = 8;

/// The fewest cells of a network for which more than one region is chosen: in smaller ones the turns may cost more than the
/// workers save.
const FEWEST_CELLS: u32 = 10_000;

/// The fewest cells of a region where their number is chosen.
const FEWEST_OF_A_REGION: u32 = 128;

/// Into how many regions a request has a network cut, or more than there are cells.
pub fn regions_wanted(net: &Net, request: Request) -> u32
    requires in_range { IsInRange request }
    ensures wanted { result ≡ regions_wanted (length net.now.cells) request }
    ensures some { 1 ≤ result }
    ensures few { result ≤ MOST_REGIONS }
{
    match request.regions {
        RegionChoice::Count(regions) => regions,
        RegionChoice::Auto => chosen_regions(net.cells.len() as u32, request.workers),
    }
}

// The number that is chosen for so many cells and workers.
fn chosen_regions(cells: u32, workers: u32) -> u32
    requires { workers ≤ 16 }
    ensures chosen { result ≡ regions_by cells workers Auto }
    ensures some { 1 ≤ result }
    ensures few { result ≤ MOST_REGIONS }
{
    if workers <= 1 || cells < FEWEST_CELLS {
        return 1;
    }
    (EACH * workers).min(cells / FEWEST_OF_A_REGION)
}
