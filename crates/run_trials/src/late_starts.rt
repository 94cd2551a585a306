ghost use Rattle.std.specs.Prelude.{◌≡◌, length};
ghost use Rattle.region_cut.specs.LawfulSteps.{AreLawful};
ghost use Rattle.region_step.specs.Starting.{Fits};

use crate::networks::{CORRIDOR, network};
use flow_model::Row;
use network_file::Net;
use network_run::regions_from;
use no_memory::NoMemory;
use region_cut::{Cut, Layout};
use region_slots::NoObserver;
use region_step::{Note, Regions, Setup, Start};
use std::alloc::{AllocError, Global};
use std::process::Abort;
use std::test::Fail;
use std::thread::Threads;
use step_words::is_lawful;

// Of the gate, its notes at the steps 2 and 3.
const GATE_NOTES: [Note; 2] = [
    Note {
        n: 2_000_000,
        gone: 2_000_000,
    },
    Note {
        n: 0,
        gone: 4_000_000,
    },
];

// Of the road and the exit, their notes at the steps 1, 2 and 3.
const REST_NOTES: [Note; 6] = [
    Note { n: 0, gone: 0 },
    Note { n: 0, gone: 0 },
    Note {
        n: 2_000_000,
        gone: 0,
    },
    Note { n: 0, gone: 0 },
    Note {
        n: 2_000_000,
        gone: 2_000_000,
    },
    Note {
        n: 2_000_000,
        gone: 0,
    },
];

// The gate at step 2, and the rest at step 1.
fn gate_ahead(alloc: Global) -> Result<Start, AllocError> {
    let gate = Row {
        n: 2_000_000,
        come: 4_000_000,
        gone: 2_000_000,
        wait: 2_000_000,
    };
    let empty = Row {
        n: 0,
        come: 0,
        gone: 0,
        wait: 0,
    };
    Ok(Start {
        steps: vec![in alloc; 2, 1]?,
        rows: vec![in alloc; gate, empty, empty]?,
        earlier: vec![in alloc; 4_000_000, 0, 0]?,
    })
}

// The regions of the corridor at its last step, gone on from there and recorded so.
fn recorded_from_there<'n, R: Abort + Threads + Sync>(
    rt: &R,
    alloc: Global,
    net: &'n Net,
    every: u64,
) -> Result<Regions<'n>, NoMemory> {
    match Cut::of(alloc, net, &[0, 1, 1]) {
        Ok(cut) => recorded_in(rt, alloc, net, cut, every),
        Err(_) => Err(NoMemory),
    }
}

// The same in the regions of a cutting.
fn recorded_in<'n, R: Abort + Threads + Sync>(
    rt: &R,
    alloc: Global,
    net: &'n Net,
    cut: Cut,
    every: u64,
) -> Result<Regions<'n>, NoMemory>
    requires { length cut ≡ length net.now.cells }
{
    let layout = Layout::new(alloc, net, cut)?;
    let start = gate_ahead(alloc)?;
    assert!(rt; start.fits(&layout));
    assert!(rt; is_lawful(&start.steps, &layout));
    last_from(rt, alloc, layout, start, every)
}

// The regions at the last step, taken there by two workers.
fn last_from<'n, R: Threads + Sync>(
    rt: &R,
    alloc: Global,
    layout: Layout<'n>,
    start: Start,
    every: u64,
) -> Result<Regions<'n>, NoMemory>
    requires fits { Fits layout.net layout.chart.cut start }
    requires lawful { AreLawful layout.net layout.chart.cut start.steps }
{
    let net = layout.net();
    let last = net.steps;
    let setup = Setup::new(layout, start, every);
    regions_from(rt, alloc, setup, last, 2, &NoObserver)
}

// Looks at the notes of the two regions, recorded so.
fn check_notes<R: Abort + Threads + Sync>(
    rt: &R,
    alloc: Global,
    net: &Net,
    every: u64,
    gate: &[Note],
    rest: &[Note],
) -> Result<(), NoMemory> {
    let taken = recorded_from_there(rt, alloc, net, every)?;
    let regions = taken.list();
    assert!(rt; regions.len() == 2);
    assert_eq!(rt; regions[0].trail(), gate, "every {every}");
    assert_eq!(rt; regions[1].trail(), rest, "every {every}");
    Ok(())
}

// The regions begin past step 0, at a step that is recorded or before it.
#[test]
fn regions_are_noted_from_their_starts_on(rt: HostRuntime) -> Result<(), Fail> {
    let net = network(&rt, rt.alloc(), CORRIDOR)?;
    for (every, gate, rest) in [
        (1, GATE_NOTES.as_slice(), REST_NOTES.as_slice()),
        (2, GATE_NOTES.as_slice(), &REST_NOTES[2..]),
        (3, &GATE_NOTES[1..], &REST_NOTES[4..]),
        (0, &[], &[]),
    ] {
        check_notes(&rt, rt.alloc(), &net, every, gate, rest)?;
    }
    Ok(())
}
