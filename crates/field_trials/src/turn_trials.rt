ghost use Rattle.std.specs.Prelude.{◌≡◌, ◌≤◌};
ghost use Rattle.region_slots.specs.FieldView.{IsPassOf};

use crate::meanwhile::turn_during_a_turn;
use crate::notes::Notes;
use region_slots::{Closed, Field, NoObserver, Observer, Pass, Turn};
use std::process::Abort;
use std::thread::Threads;

// A turn on one of two regions with a goal, what comes of it, and what the observer was told by then of regions that were freed.
#[derive(Clone, Copy)]
pub(crate) struct Told {
    pub(crate) region: u32,
    pub(crate) goal: u64,
    pub(crate) turn: Turn,
    pub(crate) freed: u64,
}

// Takes these turns, one after the other. A goal past the last step is brought back.
fn take_turns<R: Abort>(rt: &R, field: &Field, pass: &mut Pass, last: u64, turns: &[Told])
    requires belongs { IsPassOf field.now pass.old }
    requires in_time { last ≤ field.now.terms.setup.now.net.steps }
    ensures belongs { IsPassOf field.now pass.new }
    ensures share { pass.new.knows.share ≡ pass.old.knows.share }
{
    let observer = Notes::new();
    assert!(rt; field.regions() == 2);
    for told in turns {
        let turn = field.turn(pass, told.region % 2, told.goal.min(last), &observer);
        assert_eq!(rt; turn, told.turn);
        assert_eq!(rt; observer.all_freed(), told.freed);
    }
}

// A region waits for a neighbour that stands a step lower, and moves no further than the goal. The observer is told once that a
// region was freed that moved, and of no other.
pub(crate) fn turns_in_order<R: Abort>(rt: &R, field: Field, mut pass: Pass, last: u64)
    requires belongs { IsPassOf field pass }
    requires whole { pass.knows.share ≡ field.terms.seats }
    requires in_time { last ≤ field.terms.setup.now.net.steps }
{
    let behind = Turn::Behind {
        neighbour: 1,
        step: 0,
    };
    let turns = [
        turn_told(0, 3, Turn::Moved { step: 1 }, 11),
        turn_told(0, 3, behind, 11),
        turn_told(0, 3, behind, 11),
        turn_told(1, 3, Turn::Moved { step: 1 }, 1121),
        turn_told(0, 3, Turn::Moved { step: 2 }, 11_2112),
        turn_told(0, 2, Turn::Ended { step: 2 }, 11_2112),
    ];
    take_turns(rt, &field, &mut pass, last, &turns);
    let Closed { steps, regions: _ } = field.close(pass);
    assert_eq!(rt; steps.as_slice(), [2, 1].as_slice());
}

fn turn_told(region: u32, goal: u64, turn: Turn, freed: u64) -> Told {
    Told {
        region,
        goal,
        turn,
        freed,
    }
}

// Takes a region to its next step, which is this one.
pub(crate) fn move_to<R: Abort>(
    rt: &R,
    field: &Field,
    pass: &mut Pass,
    last: u64,
    region: u32,
    step: u64,
)
    requires belongs { IsPassOf field.now pass.old }
    requires in_time { last ≤ field.now.terms.setup.now.net.steps }
    ensures belongs { IsPassOf field.now pass.new }
    ensures share { pass.new.knows.share ≡ pass.old.knows.share }
{
    assert!(rt; region < field.regions());
    let turn = field.turn(pass, region, last, &NoObserver);
    assert_eq!(rt; turn, Turn::Moved { step });
}

// A pass that was shared off sees a region before and after the other pass has moved it, and a turn of it with nothing to do
// ends.
pub(crate) fn shared_pass<R: Abort>(rt: &R, field: Field, mut pass: Pass, last: u64)
    requires belongs { IsPassOf field pass }
    requires whole { (field.terms.seats ≡ 2) × (pass.knows.share ≡ 2) }
    requires in_time { last ≤ field.terms.setup.now.net.steps }
{
    let mut other = field.share(&mut pass);
    assert!(rt; field.regions() == 2);
    assert_eq!(rt; field.look(&mut other, 0), 0);
    let ended = field.turn(&mut other, 0, 0, &NoObserver);
    assert_eq!(rt; ended, Turn::Ended { step: 0 });
    move_to(rt, &field, &mut pass, last, 0, 1);
    assert_eq!(rt; field.look(&mut other, 0), 1);
    field.unite(&mut pass, other);
    let Closed { steps, regions: _ } = field.close(pass);
    assert_eq!(rt; steps.as_slice(), [1, 0].as_slice());
}

// A region that is held is held for others alone. The observer is told once of each that moved that it was freed, and not by the
// turn that found its region held.
pub(crate) fn held_for_others<R: Abort + Threads + Sync>(
    rt: &R,
    field: Field,
    mut pass: Pass,
    last: u64,
)
    requires belongs { IsPassOf field pass }
    requires two { pass.knows.share ≡ 2 }
    requires in_time { last ≤ field.terms.setup.now.net.steps }
{
    let mut other = field.share(&mut pass);
    assert!(rt; field.regions() == 2);
    let moved = Turn::Moved { step: 1 };
    let both = turn_during_a_turn(rt, &field, &mut pass, &mut other, 1, last);
    assert_eq!(rt; both, (moved, moved, 2111));
    let both = turn_during_a_turn(rt, &field, &mut pass, &mut other, 0, last);
    assert_eq!(rt; both, (Turn::Moved { step: 2 }, Turn::Held, 12));
}

// An observer is told that a region is held before a neighbour's step is read: region 0 is held at step 1 and region 1 is taken
// to that step meanwhile, so that region 0 isn't found a step ahead.
pub(crate) fn held_before_neighbours<R: Abort + Threads + Sync>(
    rt: &R,
    field: Field,
    mut pass: Pass,
    last: u64,
)
    requires belongs { IsPassOf field pass }
    requires two { pass.knows.share ≡ 2 }
    requires in_time { last ≤ field.terms.setup.now.net.steps }
{
    let mut other = field.share(&mut pass);
    assert!(rt; field.regions() == 2);
    move_to(rt, &field, &mut pass, last, 0, 1);
    let both = turn_during_a_turn(rt, &field, &mut pass, &mut other, 1, last);
    let want = (Turn::Moved { step: 2 }, Turn::Moved { step: 1 }, 2112);
    assert_eq!(rt; both, want);
}
