ghost use Rattle.std.specs.Prelude.{◌≡◌, ◌≤◌, length};
ghost use Rattle.region_slots.specs.FieldView.{IsPassOf};
ghost use Rattle.snapshot.specs.Rooms.{IsRoomFor};

use crate::meanwhile::shot_during_a_turn;
use crate::turn_trials::move_to;
use flow_ledger::Books;
use network_file::Net;
use region_slots::{Field, Pass, Shot, Turn};
use snapshot::ShotRoom;
use std::process::Abort;
use std::thread::Threads;

// Looks whether a room still shows both regions at step 0, where nothing has come in.
fn is_as_it_was<R: Abort>(rt: &R, net: &Net, room: &ShotRoom)
    requires { length room.now.rows ≡ length net.now.cells }
{
    let nothing = Books {
        inside: 0,
        flight: 0,
        initial: 0,
        entered: 0,
        left: 0,
    };
    assert_eq!(rt; room.steps(), [0, 0].as_slice());
    assert_eq!(rt; room.books(net), nothing);
}

// A shot that finds region 1 held has not kept region 0, and leaves the room as it was: at step 0, also where region 0
// stands at step 1.
pub(crate) fn busy_shots<R: Abort + Threads + Sync>(
    rt: &R,
    net: &Net,
    field: Field,
    mut pass: Pass,
    room: &mut ShotRoom,
    last: u64,
)
    requires belongs { IsPassOf field pass }
    requires two { pass.knows.share ≡ 2 }
    requires in_time { last ≤ field.terms.setup.now.net.steps }
    requires one_each { length field.terms.setup.now.chart.cut ≡ length net.now.cells }
    requires room { IsRoomFor field.terms.setup.now.chart room.old }
{
    let mut other = field.share(&mut pass);
    busy_shot(rt, net, &field, &mut pass, &mut other, room, last, 1);
    busy_shot(rt, net, &field, &mut pass, &mut other, room, last, 2);
}

// The same once: while region 1 is taken to a step, before region 0 is.
fn busy_shot<R: Abort + Threads + Sync>(
    rt: &R,
    net: &Net,
    field: &Field,
    pass: &mut Pass,
    other: &mut Pass,
    room: &mut ShotRoom,
    last: u64,
    step: u64,
)
    requires belongs { IsPassOf field.now pass.old }
    requires also { IsPassOf field.now other.old }
    requires in_time { last ≤ field.now.terms.setup.now.net.steps }
    requires one_each { length field.now.terms.setup.now.chart.cut ≡ length net.now.cells }
    requires room { IsRoomFor field.now.terms.setup.now.chart room.old }
    ensures belongs { IsPassOf field.now pass.new }
    ensures also { IsPassOf field.now other.new }
    ensures room { IsRoomFor field.now.terms.setup.now.chart room.new }
{
    assert!(rt; field.regions() == 2);
    let both = shot_during_a_turn(rt, field, pass, other, room, 1, last);
    assert_eq!(rt; both, (Turn::Moved { step }, Shot::Busy { region: 1 }));
    move_to(rt, field, other, last, 0, step);
    is_as_it_was(rt, net, room);
}
