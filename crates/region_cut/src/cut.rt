ghost use Rattle.std.specs.Prelude.{◌≡◌, ◌≤◌, Ok, IfErr, IfOk, length, nat_lt};
ghost use Rattle.std.specs.List.{list_all};
ghost use Rattle.no_memory.specs.Answers.{IsRefusal};
ghost use Rattle.network_file.specs.Cutting.{IsCutting};
ghost use Rattle.network_file.specs.declared.limits.TheConstants.{MOST_REGIONS};
ghost use Rattle.region_cut.specs.CutFaults.{cut_of};
ghost use Rattle.region_cut.specs.Cuttings.{even_cutting, region_count};

use crate::even::even_list;
use crate::fault::CutFault;
use network_file::{MOST_REGIONS, Net, greatest, has_no_gap};
use no_memory::{NoMemory, Refused};
use std::alloc::Global;
use std::marker::Model;

/// The region of each cell, where each number below the greatest one has a cell.
#[derive(Debug, Drop)]
pub struct Cut {
    regions: Vec<u32>,
}

impl Model for Cut {
    ghost use Rattle.std.specs.Prelude.{List, ℕ, length};

    ghost Value = { List ℕ };

    ghost use Rattle.network_file.specs.Cutting.{IsCutting};

    ghost view = { λ cut. cut.regions.items };

    ghost invariant = { λ cut. IsCutting (length cut.regions.items) cut.regions.items };
}

impl Cut {
    /// The even cutting of a network's cells into `k` regions: cell `i` is in region `i * k / cells`.
    pub fn even(alloc: Global, net: &Net, k: u32) -> Result<Cut, NoMemory>
        requires some { 1 ≤ k }
        requires few { k ≤ MOST_REGIONS }
        requires cells { k ≤ length net.now.cells }
        ensures cut { IfOk result (λ cut. cut ≡ even_cutting (length net.now.cells) k) }
        ensures one_each { IfOk result (λ cut. length cut ≡ length net.now.cells) }
    {
        let regions = even_list(alloc, net.cells.len() as u32, k)?;
        Ok(Cut { regions })
    }

    /// A list as a cutting of a network's cells, or its first fault.
    pub fn of(alloc: Global, net: &Net, list: &[u32]) -> Result<Cut, Refused<CutFault>>
        ensures cut { IfOk result (λ cut. cut_of net.now list.now ≡ Ok cut) }
        ensures one_each { IfOk result (λ cut. length cut ≡ length net.now.cells) }
        ensures refusal { IfErr result (λ refusal. IsRefusal refusal (cut_of net.now list.now)) }
    {
        if list.len() != net.cells.len() {
            return Err(Refused::Fault(CutFault::Length));
        }
        if !are_few(list) {
            return Err(Refused::Fault(CutFault::Many));
        }
        if !has_no_gap(alloc, list)? {
            return Err(Refused::Fault(CutFault::Gap));
        }
        let regions = copied(alloc, list)?;
        Ok(Cut { regions })
    }

    /// A list that is a cutting.
    pub fn known(regions: Vec<u32>) -> Cut
        requires { IsCutting (length regions.items) regions.items }
        ensures { result ≡ regions.items }
    {
        Cut { regions }
    }

    /// The region of each cell.
    pub fn regions(&self) -> &[u32]
        ensures { result.now ≡ self.now }
    {
        &self.regions
    }

    /// How many regions it has.
    pub(crate) fn count(&self) -> u32
        ensures count { result ≡ region_count self.now }
        ensures few { result ≤ MOST_REGIONS }
    {
        greatest(&self.regions) + 1
    }
}

// Whether each number is one that a region may have.
fn are_few(list: &[u32]) -> bool
    ensures { result ≡ list_all (λ region. nat_lt region MOST_REGIONS) list.now }
{
    list.iter().all(|region| *region < MOST_REGIONS)
}

/// The list in a vector of its own.
pub(crate) fn copied(alloc: Global, list: &[u32]) -> Result<Vec<u32>, NoMemory>
    ensures { IfOk result (λ items. items.items ≡ list.now) }
{
    let mut items = Vec::new(alloc);
    items.extend_from_slice(list)?;
    Ok(items)
}
