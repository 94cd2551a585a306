ghost use Rattle.std.specs.Prelude.{◌≡◌, ◌<◌, ◌≤◌, ℕ, length, slice_index};
ghost use Rattle.network_file.specs.declared.limits.TheConstants.{MOST_REGIONS};
ghost use Rattle.region_step.specs.Starting.{Fits};

use crate::alike::first_difference;
use crate::compared_networks::{COMPARED, RING};
use crate::rounds::open_all;
use network_file::{MOST_BYTES, MOST_REGIONS, Net};
use no_memory::NoMemory;
use plain_region::PlainRegion;
use region_cut::{Cut, Layout, cutting};
use region_step::{Region, Start};
use std::alloc::Global;
use std::process::Abort;
use std::test::Fail;

// Takes a network through its steps by both bodies side by side: in so many regions of nearly equal size, up to one for each
// cell, and with the cells dealt out to the regions in turn, so that no neighbours are of one region.
fn compare<R: Abort>(rt: &R, alloc: Global, name: &str, net: &Net) -> Result<(), NoMemory> {
    for regions in [1, 2, 3, 7, MOST_REGIONS] {
        let found = differ_evenly(alloc, net, regions, 3, 3)?;
        assert_eq!(rt; found, None, "{name} in {regions} regions");
    }
    for regions in [2, 3] {
        let found = differ_dealt(alloc, net, regions)?;
        assert_eq!(rt; found, None, "{name} dealt to {regions} regions");
    }
    Ok(())
}

// The first step at which the two bodies differ, in regions of nearly equal size which are recorded so.
fn differ_evenly(
    alloc: Global,
    net: &Net,
    regions: u32,
    every: u64,
    plain_every: u64,
) -> Result<Option<u64>, NoMemory>
    requires some { 1 ≤ regions }
    requires few { regions ≤ MOST_REGIONS }
{
    let cut = cutting(alloc, net, regions)?;
    differ_at(alloc, net, cut, every, plain_every)
}

// The same with cell `i` in region `i % regions`.
fn differ_dealt(alloc: Global, net: &Net, regions: u32) -> Result<Option<u64>, NoMemory>
    requires { 0 < regions }
{
    let mut list = Vec::new(alloc);
    for i in 0..net.cells.len() {
        list.push(i as u32 % regions)?;
    }
    match Cut::of(alloc, net, &list) {
        Ok(cut) => differ_at(alloc, net, cut, 3, 3),
        Err(_) => Err(NoMemory),
    }
}

// The same in a cutting.
fn differ_at(
    alloc: Global,
    net: &Net,
    cut: Cut,
    every: u64,
    plain_every: u64,
) -> Result<Option<u64>, NoMemory>
    requires { length cut ≡ length net.now.cells }
{
    let layout = Layout::new(alloc, net, cut)?;
    let start = Start::zero(alloc, &layout)?;
    differ_from(alloc, &layout, &start, every, plain_every)
}

// The same from a start at step 0.
fn differ_from(
    alloc: Global,
    layout: &Layout,
    start: &Start,
    every: u64,
    plain_every: u64,
) -> Result<Option<u64>, NoMemory>
    requires fits { Fits layout.now.net layout.now.chart.cut start.now }
    requires at_first { (q : ℕ) → slice_index start.now.steps q ≡ 0 }
{
    let mut regions = open_all::<Region>(alloc, layout, start, every)?;
    let mut plain = open_all::<PlainRegion>(alloc, layout, start, plain_every)?;
    first_difference(layout, &mut regions, &mut plain)
}

#[test]
fn both_bodies_come_to_the_same_states(rt: HostRuntime) -> Result<(), Fail> {
    for (name, file) in COMPARED {
        assert!(rt; file.len() <= MOST_BYTES);
        let net = Net::read(rt.alloc(), file)?;
        compare(&rt, rt.alloc(), name, &net)?;
    }
    Ok(())
}

#[test]
fn regions_that_are_recorded_otherwise_differ(rt: HostRuntime) -> Result<(), Fail> {
    let net = Net::read(rt.alloc(), RING)?;
    assert_eq!(rt; differ_evenly(rt.alloc(), &net, 2, 5, 10)?, Some(5));
    Ok(())
}
