ghost use Rattle.std.specs.Prelude.{◌≡◌, ◌≤◌};
ghost use Rattle.region_slots.specs.FieldView.{IsPassOf};

use crate::crew_trials::counts;
use crate::meeting::Meeting;
use crate::notes::Notes;
use crate::two_nests::{helper_at, two_nests};
use region_slots::{Field, Pass};
use std::alloc::Global;
use std::panic::Expect;
use std::process::Abort;
use std::slice;
use std::thread::Threads;
use worker_claim::crew_hints;

// Two helpers work at once.
pub(crate) fn two_helpers<R: Abort + Threads + Sync>(
    rt: &R,
    alloc: Global,
    field: Field,
    mut pass: Pass,
    last: u64,
)
    requires belongs { IsPassOf field pass }
    requires two { pass.knows.share ≡ 2 }
    requires in_time { last ≤ field.terms.setup.now.net.steps }
{
    let observer = Meeting::new();
    let other = field.share(&mut pass);
    assert!(rt; field.regions() == 4);
    let (first, second) = two_nests(alloc, (&[0], &[1]), 4).expect(rt, "memory");
    let mut helpers = [
        helper_at(&field, pass, first, 0),
        helper_at(&field, other, second, 2),
    ];
    crew_hints(rt, &field, &mut helpers, last, 64, &observer);
    assert!(rt; observer.took_place());
}

// How a helper alone goes about that has the second of two nests, and what comes of it. Before, the nests are filled as for
// these members.
#[derive(Clone, Copy)]
pub(crate) struct Way {
    pub(crate) other: &'static [u32],
    pub(crate) own: &'static [u32],
    // The region at which its sweeps begin, its goal, and how many sweeps' worth of turns it has.
    pub(crate) first: u32,
    pub(crate) goal: u64,
    pub(crate) sweeps: u32,
    // How many of its turns moved their region, found it behind, or found it at the goal, and whether all of a sweep did that.
    pub(crate) moved: u64,
    pub(crate) behind: u64,
    pub(crate) ended: u64,
    pub(crate) all: bool,
    // The regions at which it worked, as the digits of a number.
    pub(crate) worked: u64,
}

pub(crate) fn a_helper_alone<R: Abort + Threads + Sync>(
    rt: &R,
    alloc: Global,
    field: Field,
    pass: Pass,
    last: u64,
    way: Way,
)
    requires belongs { IsPassOf field pass }
    requires in_time { last ≤ field.terms.setup.now.net.steps }
{
    let observer = Notes::new();
    assert!(rt; field.regions() == 4);
    let (_other, own) = two_nests(alloc, (way.other, way.own), 4).expect(rt, "memory");
    let mut helper = helper_at(&field, pass, own, way.first);
    let helpers = slice::from_mut(&mut helper);
    crew_hints(
        rt,
        &field,
        helpers,
        way.goal.min(last),
        way.sweeps,
        &observer,
    );
    let want = counts(way.moved, way.behind, way.ended, way.all);
    assert_eq!(rt; helper.member.driven, want);
    assert_eq!(rt; observer.all_worked(), way.worked);
}
