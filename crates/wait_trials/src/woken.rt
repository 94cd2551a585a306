ghost use Rattle.std.specs.Prelude.{◌≡◌, ◌≤◌, ⊤};
ghost use Rattle.network_file.specs.declared.limits.TheConstants.{MOST_REGIONS};
ghost use Rattle.region_slots.specs.FieldView.{IsPassOf};
ghost use Rattle.parked_crew.specs.Parking.{ArePassesOf};

use crate::last_moves::LastMoves;
use network_file::{MOST_BYTES, Net};
use no_memory::NoMemory;
use parked_crew::{Board, parked};
use region_cut::charted;
use region_slots::{Field, NoObserver, Pass};
use region_step::Setup;
use std::alloc::Global;
use std::process::Abort;
use std::sync::Wait;
use std::sync::atomic::{AtomicU64, Ordering};
use std::test::Fail;
use std::thread::{Threads, join_mut, yield_now};

// Whether three members of a crew come past an observer to the last step of the network in a file, each cell a region, without
// being woken from outside. Where nobody else wakes them, the moves of another network's crew do.
pub(crate) fn three_members<R: Abort + Threads + Wait + Sync>(
    rt: &R,
    alloc: Global,
    text: &[u8],
    outside: &[u8],
    regions: u32,
    observer: &LastMoves,
) -> Result<bool, Fail>
    requires some { 1 ≤ regions }
    requires few { regions ≤ MOST_REGIONS }
{
    assert!(rt; text.len() <= MOST_BYTES);
    assert!(rt; outside.len() <= MOST_BYTES);
    let net = Net::read(alloc, text)?;
    let outside = Net::read(alloc, outside)?;
    Ok(on_networks(rt, alloc, &net, &outside, regions, observer)?)
}

// The same of networks that are read.
fn on_networks<R: Threads + Wait + Sync>(
    rt: &R,
    alloc: Global,
    net: &Net,
    outside: &Net,
    regions: u32,
    observer: &LastMoves,
) -> Result<bool, NoMemory>
    requires some { 1 ≤ regions }
    requires few { regions ≤ MOST_REGIONS }
{
    let layout = charted(alloc, net, regions)?;
    let setup = Setup::zero(alloc, layout, 0)?;
    beside(rt, alloc, &setup, outside, observer)
}

// The same of a network that is set up, beside the other one.
fn beside<R: Threads + Wait + Sync>(
    rt: &R,
    alloc: Global,
    setup: &Setup<'_>,
    outside: &Net,
    observer: &LastMoves,
) -> Result<bool, NoMemory> {
    let layout = charted(alloc, outside, 1)?;
    let other = Setup::zero(alloc, layout, 0)?;
    on_setups(rt, alloc, setup, &other, observer)
}

// The same of both set up.
fn on_setups<R: Threads + Wait + Sync>(
    rt: &R,
    alloc: Global,
    setup: &Setup<'_>,
    other: &Setup<'_>,
    observer: &LastMoves,
) -> Result<bool, NoMemory> {
    let last = setup.layout().net().steps;
    let soon = other.layout().net().steps;
    let (field, pass) = Field::open(alloc, setup, 3)?;
    let (bell, ringer) = Field::open(alloc, other, 1)?;
    Ok(is_woken(rt, &field, pass, last, &bell, ringer, soon, observer))
}

// The same on fields, with the passes that have all of their seats.
fn is_woken<R: Threads + Wait + Sync>(
    rt: &R,
    field: &Field,
    mut pass: Pass,
    last: u64,
    bell: &Field,
    ringer: Pass,
    soon: u64,
    observer: &LastMoves,
) -> bool
    requires belongs { IsPassOf field.now pass }
    requires three { pass.knows.share ≡ 3 }
    requires in_time { last ≤ field.now.terms.setup.now.net.steps }
    requires also { IsPassOf bell.now ringer }
    requires soon { soon ≤ bell.now.terms.setup.now.net.steps }
{
    let second = field.share(&mut pass);
    let third = field.share(&mut pass);
    let mut members = [pass, second, third];
    let mut ringers = [ringer];
    let returned = AtomicU64::new(0);
    let board = Board::new();
    let (ended, board) = (&returned, &board);
    let (crew, outside) = (&mut members, &mut ringers);
    let mut work = || -> ()
        requires { ArePassesOf field.now crew.now × (last ≤ field.now.terms.setup.now.net.steps) }
        ensures { ⊤ }
    {
        let (field, last, board, observer, ended) = (field, last, board, observer, ended);
        parked(rt, field, crew, last, board, observer);
        ended.store(1, Ordering::SeqCst);
    };
    let mut watch = || -> bool
        requires { ArePassesOf bell.now outside.now × (soon ≤ bell.now.terms.setup.now.net.steps) }
        ensures { ⊤ }
    {
        let (bell, soon, board, ended) = (bell, soon, board, ended);
        let is_ended = ends_in_time(ended);
        if !is_ended {
            parked(rt, bell, outside, soon, board, &NoObserver);
        }
        is_ended
    };
    let ((), is_woken) = join_mut(rt, &mut work, &mut watch);
    is_woken
}

// Whether the flag is set within some seconds, while others are let go on.
fn ends_in_time(flag: &AtomicU64) -> bool {
    for _ in 0..5_000_000 {
        if flag.load(Ordering::SeqCst) != 0 {
            return true;
        }
        yield_now();
    }
    false
}
