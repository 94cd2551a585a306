ghost use Rattle.std.specs.Prelude.{◌≡◌, ◌≤◌, length};
ghost use Rattle.snapshot.specs.Rooms.{IsRoomFor};
ghost use Rattle.region_slots.specs.FieldView.{IsPassOf};

use crate::crew_trials::two_members;
use crate::help_trials::{Way, a_helper_alone, two_helpers};
use crate::shot_trials::busy_shots;
use crate::turn_trials::{held_before_neighbours, held_for_others, shared_pass, turns_in_order};
use network_file::{MOST_BYTES, Net};
use no_memory::NoMemory;
use region_cut::{Layout, charted};
use region_slots::{Field, Pass};
use region_step::Setup;
use snapshot::ShotRoom;
use std::alloc::Global;
use std::process::Abort;
use std::test::Fail;
use std::thread::Threads;

// What is tried on a field that stands at step 0.
#[derive(Clone, Copy)]
pub(crate) enum Trial {
    Turns,
    HeldForOthers,
    HeldBeforeNeighbours,
    SharedPass,
    BusyShots,
    TwoMembers,
    TwoHelpers,
    AHelperAlone(Way),
}

// Makes a trial on a field of the network in a file.
pub(crate) fn on_field<R: Abort + Threads + Sync>(
    rt: &R,
    alloc: Global,
    text: &[u8],
    trial: Trial,
) -> Result<(), Fail> {
    assert!(rt; text.len() <= MOST_BYTES);
    let net = Net::read(alloc, text)?;
    let layout = charted(alloc, &net, 1)?;
    open(rt, alloc, layout, trial)?;
    Ok(())
}

// The same of a network that is cut.
fn open<R: Abort + Threads + Sync>(
    rt: &R,
    alloc: Global,
    layout: Layout<'_>,
    trial: Trial,
) -> Result<(), NoMemory> {
    let net = layout.net();
    let mut room = ShotRoom::new(alloc, &layout)?;
    let setup = Setup::zero(alloc, layout, 0)?;
    let (field, pass) = Field::open(alloc, &setup, 2)?;
    make(rt, alloc, net, field, pass, &mut room, trial);
    Ok(())
}

// Makes a trial on a field, with the pass that has both of its seats.
fn make<R: Abort + Threads + Sync>(
    rt: &R,
    alloc: Global,
    net: &Net,
    field: Field,
    pass: Pass,
    room: &mut ShotRoom,
    trial: Trial,
)
    requires belongs { IsPassOf field pass }
    requires whole { (field.terms.seats ≡ 2) × (pass.knows.share ≡ 2) }
    requires network { field.terms.setup.now.net ≡ net.now }
    requires one_each { length field.terms.setup.now.chart.cut ≡ length net.now.cells }
    requires room { IsRoomFor field.terms.setup.now.chart room.old }
{
    let last = net.steps;
    match trial {
        Trial::Turns => turns_in_order(rt, field, pass, last),
        Trial::HeldForOthers => held_for_others(rt, field, pass, last),
        Trial::HeldBeforeNeighbours => held_before_neighbours(rt, field, pass, last),
        Trial::SharedPass => shared_pass(rt, field, pass, last),
        Trial::BusyShots => busy_shots(rt, net, field, pass, room, last),
        Trial::TwoMembers => two_members(rt, field, pass, last),
        Trial::TwoHelpers => two_helpers(rt, alloc, field, pass, last),
        Trial::AHelperAlone(way) => a_helper_alone(rt, alloc, field, pass, last, way),
    }
}
