ghost use Rattle.std.specs.Prelude.{◌≡◌, ◌≤◌};
ghost use Rattle.region_slots.specs.FieldView.{IsPassOf};

use crate::meeting::Meeting;
use network_file::{MOST_BYTES, Net};
use no_memory::NoMemory;
use parked_crew::{Board, parked};
use region_cut::{Layout, charted};
use region_slots::{Field, Pass};
use region_step::Setup;
use std::alloc::Global;
use std::process::Abort;
use std::sync::Wait;
use std::test::Fail;
use std::thread::Threads;

// Two members of a crew take the network in a file to its last step, in four regions.
pub(crate) fn two_members<R: Abort + Threads + Wait + Sync>(
    rt: &R,
    alloc: Global,
    text: &[u8],
) -> Result<(), Fail> {
    assert!(rt; text.len() <= MOST_BYTES);
    let net = Net::read(alloc, text)?;
    let layout = charted(alloc, &net, 4)?;
    on_field(rt, alloc, layout)?;
    Ok(())
}

// The same of a network that is cut.
fn on_field<R: Abort + Threads + Wait + Sync>(
    rt: &R,
    alloc: Global,
    layout: Layout<'_>,
) -> Result<(), NoMemory> {
    let last = layout.net().steps;
    let setup = Setup::zero(alloc, layout, 0)?;
    let (field, pass) = Field::open(alloc, &setup, 2)?;
    meet(rt, &field, pass, last);
    Ok(())
}

// The same on a field, with the pass that has both of its seats.
fn meet<R: Abort + Threads + Wait + Sync>(rt: &R, field: &Field, mut pass: Pass, last: u64)
    requires belongs { IsPassOf field.now pass }
    requires two { pass.knows.share ≡ 2 }
    requires in_time { last ≤ field.now.terms.setup.now.net.steps }
{
    let observer = Meeting::new();
    let other = field.share(&mut pass);
    parked(
        rt,
        field,
        &mut [pass, other],
        last,
        &Board::new(),
        &observer,
    );
    assert!(rt; observer.took_place(), "each waited for the other");
    assert!(rt;
        observer.is_complete(0b1111),
        "each region was held at each step"
    );
}
