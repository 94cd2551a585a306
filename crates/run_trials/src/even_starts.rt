ghost use Rattle.std.specs.Prelude.{◌≡◌, ◌≤◌, IfOk};

use crate::networks::{CORRIDOR, network};
use flow_model::Row;
use network_file::Net;
use network_run::regions_from;
use no_memory::NoMemory;
use region_cut::{Cut, Layout};
use region_slots::NoObserver;
use region_step::{Setup, Start};
use saved_run::even_start;
use std::alloc::Global;
use std::test::Fail;
use std::thread::Threads;

// The rows of the corridor at step 2.
const ROWS: [Row; 3] = [
    Row {
        n: 2_000_000,
        come: 4_000_000,
        gone: 2_000_000,
        wait: 2_000_000,
    },
    Row {
        n: 2_000_000,
        come: 2_000_000,
        gone: 0,
        wait: 0,
    },
    Row {
        n: 0,
        come: 0,
        gone: 0,
        wait: 0,
    },
];

// The network in a cutting.
fn layout_in<'n>(alloc: Global, net: &'n Net, cut: &[u32]) -> Result<Layout<'n>, NoMemory>
    ensures { IfOk result (λ layout. layout.net ≡ net.now) }
{
    match Cut::of(alloc, net, cut) {
        Ok(cut) => Layout::new(alloc, net, cut),
        Err(_) => Err(NoMemory),
    }
}

// Where a run goes on in a new cutting at step 2, taken there in an old one.
fn start_at_two<R: Threads + Sync>(
    rt: &R,
    alloc: Global,
    old: Layout<'_>,
    new: &Layout,
) -> Result<Start, NoMemory>
    requires one_network { new.now.net ≡ old.net }
    requires in_time { 2 ≤ old.net.steps }
{
    let setup = Setup::zero(alloc, old, 0)?;
    let regions = regions_from(rt, alloc, setup, 2, 1, &NoObserver)?;
    even_start(alloc, &regions, new)
}

#[test]
fn a_run_goes_on_evenly_in_another_cutting(rt: HostRuntime) -> Result<(), Fail> {
    let net = network(&rt, rt.alloc(), CORRIDOR)?;
    assert!(rt; net.steps >= 2);
    let old = layout_in(rt.alloc(), &net, &[0, 1, 1])?;
    let new = layout_in(rt.alloc(), &net, &[0, 0, 1])?;
    let start = start_at_two(&rt, rt.alloc(), old, &new)?;
    assert_eq!(rt; start.steps.as_slice(), [2, 2].as_slice());
    assert_eq!(rt; start.rows.as_slice(), ROWS.as_slice());
    assert_eq!(rt; start.earlier.as_slice(), [4_000_000, 0, 0].as_slice());
    Ok(())
}
