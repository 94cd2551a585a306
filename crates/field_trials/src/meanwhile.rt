ghost use Rattle.std.specs.Prelude.{◌≡◌, ◌<◌, ◌≤◌};
ghost use Rattle.region_cut.specs.Cuttings.{region_count};
ghost use Rattle.region_slots.specs.FieldView.{IsPassOf};
ghost use Rattle.snapshot.specs.Rooms.{IsRoomFor};

use crate::pause::Pause;
use region_slots::{Field, Pass, Shot, Turn};
use snapshot::ShotRoom;
use std::thread::{Threads, join_mut};

// A turn that is taken once another holds its region.
fn turn_meanwhile(field: &Field, pass: &mut Pass, region: u32, goal: u64, pause: &Pause) -> Turn
    requires belongs { IsPassOf field.now pass.old }
    requires there { region < region_count field.now.terms.setup.now.chart.cut }
    requires in_time { goal ≤ field.now.terms.setup.now.net.steps }
    ensures belongs { IsPassOf field.now pass.new }
{
    pause.wait_for_turn();
    let answer = field.turn(pass, region, goal, pause);
    pause.let_go();
    answer
}

// What a turn on region 0 comes to, and one on another region that another thread takes meanwhile, and which regions their
// observer was told to be freed.
pub(crate) fn turn_during_a_turn<R: Threads + Sync>(
    rt: &R,
    field: &Field,
    pass: &mut Pass,
    other: &mut Pass,
    region: u32,
    goal: u64,
) -> (Turn, Turn, u64)
    requires belongs { IsPassOf field.now pass.old }
    requires also { IsPassOf field.now other.old }
    requires there { region < region_count field.now.terms.setup.now.chart.cut }
    requires in_time { goal ≤ field.now.terms.setup.now.net.steps }
    ensures belongs { IsPassOf field.now pass.new }
    ensures also { IsPassOf field.now other.new }
{
    let pause = Pause::new(0);
    let observer = &pause;
    let mut first = || -> Turn
        requires { IsPassOf field.now pass.now × (goal ≤ field.now.terms.setup.now.net.steps) }
        ensures { IsPassOf field.entry.now pass.exit.now }
    {
        let (field, goal, observer) = (field, goal, observer);
        field.turn(pass, 0, goal, observer)
    };
    let mut second = || -> Turn
        requires { IsPassOf field.now other.now × (region < region_count field.now.terms.setup.now.chart.cut) × (goal ≤ field.now.terms.setup.now.net.steps) }
        ensures { IsPassOf field.entry.now other.exit.now }
    {
        let (field, region, goal, observer) = (field, region, goal, observer);
        turn_meanwhile(field, other, region, goal, observer)
    };
    let (one, two) = join_mut(rt, &mut first, &mut second);
    (one, two, pause.notes.all_freed())
}

// A shot with one try that is taken once a turn holds its region.
fn shot_meanwhile(field: &Field, pass: &mut Pass, room: &mut ShotRoom, pause: &Pause) -> Shot
    requires belongs { IsPassOf field.now pass.old }
    requires room { IsRoomFor field.now.terms.setup.now.chart room.old }
    ensures belongs { IsPassOf field.now pass.new }
    ensures room { IsRoomFor field.now.terms.setup.now.chart room.new }
{
    pause.wait_for_turn();
    let shot = field.shot(pass, room, 1);
    pause.let_go();
    shot
}

// What a turn on a region comes to, and a shot with one try that another thread takes while the region is held.
pub(crate) fn shot_during_a_turn<R: Threads + Sync>(
    rt: &R,
    field: &Field,
    pass: &mut Pass,
    other: &mut Pass,
    room: &mut ShotRoom,
    region: u32,
    goal: u64,
) -> (Turn, Shot)
    requires belongs { IsPassOf field.now pass.old }
    requires also { IsPassOf field.now other.old }
    requires room { IsRoomFor field.now.terms.setup.now.chart room.old }
    requires there { region < region_count field.now.terms.setup.now.chart.cut }
    requires in_time { goal ≤ field.now.terms.setup.now.net.steps }
    ensures belongs { IsPassOf field.now pass.new }
    ensures also { IsPassOf field.now other.new }
    ensures room { IsRoomFor field.now.terms.setup.now.chart room.new }
{
    let pause = Pause::new(region);
    let observer = &pause;
    let mut turning = || -> Turn
        requires { IsPassOf field.now pass.now × (region < region_count field.now.terms.setup.now.chart.cut) × (goal ≤ field.now.terms.setup.now.net.steps) }
        ensures { IsPassOf field.entry.now pass.exit.now }
    {
        let (field, region, goal, observer) = (field, region, goal, observer);
        field.turn(pass, region, goal, observer)
    };
    let mut shooting = || -> Shot
        requires { IsPassOf field.now other.now × IsRoomFor field.now.terms.setup.now.chart room.now }
        ensures { IsPassOf field.entry.now other.exit.now × IsRoomFor field.entry.now.terms.setup.now.chart room.exit.now }
    {
        let (field, observer) = (field, observer);
        shot_meanwhile(field, other, room, observer)
    };
    join_mut(rt, &mut turning, &mut shooting)
}
