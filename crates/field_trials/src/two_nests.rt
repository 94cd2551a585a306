ghost use Rattle.std.specs.Prelude.{◌≡◌, ◌≤◌, IfOk};
ghost use Rattle.region_cut.specs.Cuttings.{region_count};
ghost use Rattle.region_slots.specs.FieldView.{IsPassOf};
ghost use Rattle.worker_claim.specs.Helping.{IsHelperOf};

use no_memory::NoMemory;
use number_deques::{Nest, nests};
use region_slots::{Field, Pass};
use std::alloc::Global;
use worker_claim::{Helper, Member};

// The nests of two members for so many regions, each filled once for each of these members.
pub(crate) fn two_nests(
    alloc: Global,
    filled: (&[u32], &[u32]),
    regions: u32,
) -> Result<(Nest, Nest), NoMemory>
    requires { 1 ≤ regions }
    ensures first { IfOk result (λ both. both.0.regions ≡ regions) }
    ensures second { IfOk result (λ both. both.1.regions ≡ regions) }
{
    let mut nests = nests(alloc, 2, regions)?;
    fill(&mut nests[0], filled.0, regions);
    fill(&mut nests[1], filled.1, regions);
    match (nests.pop(), nests.pop()) {
        (Some(second), Some(first)) => Ok((first, second)),
        _ => Err(NoMemory),
    }
}

// Fills a nest once for each of these members.
fn fill(nest: &mut Nest, members: &[u32], regions: u32)
    requires { nest.old ≡ record { members = 2; regions = regions } }
    ensures { nest.new ≡ nest.old }
{
    for &number in members {
        nest.fill(number % 2, 2, regions);
    }
}

// A helper whose sweeps begin at a region of the field.
pub(crate) fn helper_at(field: &Field, pass: Pass, nest: Nest, first: u32) -> Helper
    requires belongs { IsPassOf field.now pass }
    requires nest { nest.regions ≡ region_count field.now.terms.setup.now.chart.cut }
    ensures { IsHelperOf field.now result }
{
    let member = Member::new(pass, first % field.regions());
    Helper { member, nest }
}
