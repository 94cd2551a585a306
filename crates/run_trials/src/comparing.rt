ghost use Rattle.std.specs.Prelude.{◌≡◌, length};
ghost use Rattle.region_slots.specs.FieldView.{IsPassOf};
ghost use Rattle.snapshot.specs.Rooms.{IsRoomFor};

use crate::mixed_calls::{Found, call_at_once};
use crate::networks::whole_steps;
use flow_model::Row;
use no_memory::NoMemory;
use region_cut::Layout;
use region_slots::{Field, NoObserver, Pass, Shot};
use region_step::Setup;
use snapshot::ShotRoom;
use std::alloc::Global;
use std::process::Abort;
use std::thread::Threads;
use sweeping_crew::drive;

// How many seats a field has on which calls are made at once.
const SEATS: u32 = 5;

// Compares the rows of a field after calls at once, taken to the last step, with those of whole steps.
pub(crate) fn compare_rows<R: Abort + Threads + Sync>(
    rt: &R,
    alloc: Global,
    layout: Layout<'_>,
    found: &Found,
) -> Result<(), NoMemory> {
    let net = layout.net();
    let rows = whole_steps(alloc, net)?;
    let setup = Setup::zero(alloc, layout, 0)?;
    compare_with(rt, alloc, &setup, found, &rows)
}

// The same with these rows.
fn compare_with<R: Abort + Threads + Sync>(
    rt: &R,
    alloc: Global,
    setup: &Setup,
    found: &Found,
    rows: &[Row],
) -> Result<(), NoMemory> {
    let layout = setup.layout();
    let net = layout.net();
    let mut room = ShotRoom::new(alloc, layout)?;
    let (field, mut pass) = Field::open(alloc, setup, SEATS)?;
    let last = net.steps;
    call_at_once(rt, alloc, layout, &field, &mut pass, found, last);
    show_last(rt, &field, &mut pass, &mut room, last);
    assert!(rt; room.rows() == rows, "the rows of whole steps");
    Ok(())
}

// Takes all regions to the last step, and shows them.
fn show_last<R: Abort>(rt: &R, field: &Field, pass: &mut Pass, room: &mut ShotRoom, last: u64)
    requires belongs { IsPassOf field.now pass.old }
    requires room { IsRoomFor field.now.terms.setup.now.chart room.old }
    requires in_time { last ≡ field.now.terms.setup.now.net.steps }
{
    let _regions = field.regions();
    let driven = drive(field, pass, last, 4096, 0, &NoObserver);
    assert!(rt; driven.all, "all regions are at the last step");
    let shot = field.shot(pass, room, 1);
    assert_eq!(rt; shot, Shot::Taken);
}
