ghost use Rattle.std.specs.Prelude.{◌≡◌, ℕ, List, Some, None, IfErr, IfOk, MatchOption, false, map, nat_lt};
ghost use Rattle.std.specs.List.{list_all};
ghost use Rattle.no_memory.specs.Answers.{IfFault};
ghost use Rattle.network_file.specs.declared.limits.TheConstants.{MOST_REGIONS};
ghost use Rattle.saved_run.specs.Heads.{content_in};
ghost use Rattle.saved_run.specs.Loading.{cutting_in};
ghost use Rattle.saved_run.specs.declared.fault.LoadFault.TheVariants.{Cutting};

use crate::fault::LoadFault;
use crate::row_line::RowLine;
use crate::saved_head::SavedHead;
use network_file::{MOST_REGIONS, Net};
use no_memory::{NoMemory, Refused};
use region_cut::{Cut, Layout};
use std::alloc::Global;

/// A network that is cut as the row lines of a content say.
pub(crate) fn layout_in<'n>(
    alloc: Global,
    net: &'n Net,
    head: &SavedHead,
) -> Result<Layout<'n>, Refused<LoadFault>>
    ensures network { IfOk result (λ layout. layout.net ≡ net.now) }
    ensures cutting { IfOk result (λ layout. (network : List ℕ) → cutting_in net.now (content_in head.now network) ≡ Some layout.chart.cut) }
    ensures refusal { IfErr result (λ refusal. IfFault refusal (λ fault. (fault ≡ Cutting) × ((network : List ℕ) → cutting_in net.now (content_in head.now network) ≡ None))) }
{
    let Some(regions) = region_numbers(alloc, &head.rows)? else {
        return Err(Refused::Fault(LoadFault::Cutting));
    };
    let cut = match Cut::of(alloc, net, &regions) {
        Ok(cut) => cut,
        Err(Refused::Fault(_)) => return Err(Refused::Fault(LoadFault::Cutting)),
        Err(Refused::NoMemory) => return Err(Refused::NoMemory),
    };
    let layout = Layout::new(alloc, net, cut)?;
    if layout.regions() as usize == head.steps.len() {
        Ok(layout)
    } else {
        Err(Refused::Fault(LoadFault::Cutting))
    }
}

// The region number of each row line, where each is one that a region may have.
fn region_numbers(alloc: Global, rows: &[RowLine]) -> Result<Option<Vec<u32>>, NoMemory>
    ensures { IfOk result (λ found. MatchOption found (list_all (λ region. nat_lt region MOST_REGIONS) (map (λ line. line.region) rows.now) ≡ false)
        (λ regions. regions.items ≡ map (λ line. line.region) rows.now)) }
{
    let mut regions = Vec::new(alloc);
    for line in rows {
        if line.region >= u64::from(MOST_REGIONS) {
            return Ok(None);
        }
        regions.push(line.region as u32)?;
    }
    Ok(Some(regions))
}
