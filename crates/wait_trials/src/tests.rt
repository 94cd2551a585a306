use crate::calling::call_past;
use crate::crew::two_members;
use crate::last_moves::LastMoves;
use crate::meeting::Meeting;
use crate::regions::Regions;
use crate::woken::three_members;
use call_ending::Status;
use region_slots::NoObserver;
use std::alloc::{AllocError, Global};
use std::process::Abort;
use std::sync::Wait;
use std::test::Fail;
use std::thread::Threads;

// A gate, two roads and an exit, each a region of its own where there are four.
const CHAIN: &[u8] =
    b"ctm,1\nsteps,4\ngate,g,2,8\nroad,a,6,2,1,1,0\nroad,b,6,2,1,1,0\nexit,x,2\nlink,g,a\nlink,a,b\nlink,b,x\n";

const CHAIN_REPORT: &[u8] = b"report,4,4\ncell,g,0.000000,0.000000,8.000000,12.000000\n\
cell,a,2.000000,8.000000,6.000000,0.000000\ncell,b,2.000000,6.000000,4.000000,0.000000\n\
cell,x,4.000000,4.000000,0.000000,0.000000\ntotal,4.000000,0.000000,4.000000,12.000000\n";

#[test]
fn two_members_that_wait_work_at_once(rt: HostRuntime) -> Result<(), Fail> {
    two_members(&rt, rt.alloc(), CHAIN)
}

#[test]
fn two_workers_that_wait_work_at_once(rt: HostRuntime) -> Result<(), Fail> {
    let observer = Meeting::new();
    let ended = call_past(&rt, rt.alloc(), &["2"], CHAIN, &observer)?;
    assert_eq!(rt; ended.status, Status::Done);
    assert_eq!(rt; ended.out.bytes(), CHAIN_REPORT);
    assert!(rt; ended.err.bytes().is_empty());
    assert!(rt; observer.took_place(), "each waited for the other");
    assert!(rt;
        observer.is_complete(0b1111),
        "each region was held at each step"
    );
    Ok(())
}

#[test]
fn words_that_are_no_number_of_workers_are_refused(rt: HostRuntime) -> Result<(), Fail> {
    for words in [
        [].as_slice(),
        &[""],
        &["0"],
        &["17"],
        &["2.0"],
        &["run"],
        &["2", "2"],
    ] {
        let ended = call_past(&rt, rt.alloc(), words, CHAIN, &NoObserver)?;
        assert_eq!(rt; ended.status, Status::Words);
        assert!(rt; ended.out.bytes().is_empty());
        assert_eq!(rt; ended.err.bytes(), b"ctm: words refused\n".as_slice());
    }
    Ok(())
}

// The chain, whose file gives it two regions.
const CHAIN_IN_TWO: &[u8] =
    b"ctm,2\nsteps,4\ngate,g,2,8\nroad,a,6,2,1,1,0\nroad,b,6,2,1,1,0\nexit,x,2\nlink,g,a\nlink,a,b\nlink,b,x\n\
region,g,0\nregion,a,0\nregion,b,1\nregion,x,1\n";

// So many exits.
fn exits(alloc: Global, many: u32) -> Result<Vec<u8>, AllocError> {
    let mut text = b"ctm,1\nsteps,1\n".to_vec(alloc)?;
    for number in 0..many {
        let line = format!(in alloc; "exit,e{number},1\n")?;
        text.extend_from_slice(line.as_bytes())?;
    }
    Ok(text)
}

// Looks which regions are held in a call.
fn check_regions<R: Abort + Threads + Wait + Sync>(
    rt: &R,
    alloc: Global,
    input: &[u8],
    noted: u64,
) -> Result<(), AllocError> {
    let observer = Regions::none();
    let ended = call_past(rt, alloc, &["2"], input, &observer)?;
    assert_eq!(rt; ended.status, Status::Done);
    assert_eq!(rt; observer.noted(), Some(noted));
    Ok(())
}

#[test]
fn a_run_is_in_the_regions_of_its_file(rt: HostRuntime) -> Result<(), Fail> {
    check_regions(&rt, rt.alloc(), CHAIN_IN_TWO, 0b11)?;
    Ok(())
}

#[test]
fn a_run_of_more_cells_than_64_is_in_64_regions(rt: HostRuntime) -> Result<(), Fail> {
    let input = exits(rt.alloc(), 65)?;
    check_regions(&rt, rt.alloc(), &input, u64::MAX)?;
    Ok(())
}

// Three exits, a fourth, a gate, the exit that it leads to, and so many exits more, to be taken to step 2.
fn last_ones(alloc: Global, more: u32) -> Result<Vec<u8>, AllocError> {
    let mut text =
        b"ctm,1\nsteps,2\nexit,a,1\nexit,b,1\nexit,c,1\nexit,d,1\ngate,g,1,1\nexit,x,1\nlink,g,x\n".to_vec(
            alloc,
        )?;
    for number in 0..more {
        let line = format!(in alloc; "exit,e{number},1\n")?;
        text.extend_from_slice(line.as_bytes())?;
    }
    Ok(text)
}

// A network of one region, whose moves wake the crew of another where nobody else does.
const ONE_EXIT: &[u8] = b"ctm,1\nsteps,1\nexit,x,1\n";

// The moves come as the vain sweep still goes over the other regions, so that its member may come to sleep after the last of
// them alone. How soon that is depends on the machine, so it is tried with many delays.
#[test]
fn a_member_is_told_of_moves_during_its_sweep(rt: HostRuntime) -> Result<(), Fail> {
    let text = last_ones(rt.alloc(), 506)?;
    for round in 0..48_u32 {
        let observer = LastMoves::new(510, 1 << (round % 16), false);
        let woken = three_members(&rt, rt.alloc(), &text, ONE_EXIT, 512, &observer)?;
        assert!(rt; woken, "a member sleeps though all regions are at the goal");
        assert!(rt; observer.took_place(), "each came to its part");
    }
    Ok(())
}

// The moves come once that member sleeps, each of them in a sweep that has moved a region before.
#[test]
fn a_member_is_told_of_moves_after_the_first_of_a_sweep(rt: HostRuntime) -> Result<(), Fail> {
    let text = last_ones(rt.alloc(), 0)?;
    let observer = LastMoves::new(4, 100_000, true);
    let woken = three_members(&rt, rt.alloc(), &text, ONE_EXIT, 6, &observer)?;
    assert!(rt; woken, "a member sleeps though all regions are at the goal");
    assert!(rt; observer.took_place(), "each came to its part");
    Ok(())
}
