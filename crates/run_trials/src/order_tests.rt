ghost use Rattle.std.specs.Prelude.{◌≤◌};
ghost use Rattle.network_file.specs.declared.limits.TheConstants.{MOST_REGIONS};

use crate::comparing::compare_rows;
use crate::mixed_calls::{Found, SHOTS};
use crate::networks::network;
use network_file::Net;
use no_memory::NoMemory;
use region_cut::charted;
use std::alloc::Global;
use std::process::Abort;
use std::test::Fail;
use std::thread::Threads;

// A gate, six roads and an exit.
const CHAIN: &str =
    "ctm,1; steps,200; gate,a,2,3; road,b,10,3,1,2,7.5; road,c,8,2,1,1,8; road,d,9,4,2,3,0; \
road,e,6,2.5,1,3,1.25; road,f,7,3,1,2,0; road,g,9,2,1,1,9; exit,h,1.5; link,a,b; link,b,c; link,c,d; link,d,e; \
link,e,f; link,f,g; link,g,h; demand,a,0,150,1.7; limit,h,40,60,0; signal,e,6,2,0,3";

// Compares the rows of a network after calls at once, in so many regions where its file gives none.
fn compare<R: Abort + Threads + Sync>(
    rt: &R,
    alloc: Global,
    net: &Net,
    regions: u32,
    found: &Found,
) -> Result<(), NoMemory>
    requires some { 1 ≤ regions }
    requires few { regions ≤ MOST_REGIONS }
{
    let layout = charted(alloc, net, regions)?;
    compare_rows(rt, alloc, layout, found)
}

#[test]
fn turns_looks_and_shots_at_once_give_the_rows_of_whole_steps(rt: HostRuntime) -> Result<(), Fail> {
    let net = network(&rt, rt.alloc(), CHAIN)?;
    let found = Found::none();
    compare(&rt, rt.alloc(), &net, 8, &found)?;
    assert!(rt; found.taken() >= SHOTS);
    assert_eq!(rt; found.unsound(), 0);
    assert!(rt; found.midway() > 0, "a shot was taken on the way");
    Ok(())
}
