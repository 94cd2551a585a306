ghost use Rattle.std.specs.Prelude.{◌≡◌, ◌≤◌};
ghost use Rattle.worker_claim.specs.Members.{IsMemberOf};
ghost use Rattle.region_slots.specs.Moments.{AreTold, cut_run};
ghost use Rattle.worker_claim.specs.Telling.{AreMembersTold};
ghost use Rattle.sweeping_crew.specs.Members.{AreDriven, AreMembersOf, IsDriven};

use crate::driving::drive;
use region_slots::{Field, Observer};
use std::thread::{Threads, for_each_mut};
use worker_claim::Member;

/// Has each member drive, all at once where the threads can be made, and one after the other where they can't.
pub fn crew<R: Threads + Sync, W: Observer>(
    rt: &R,
    field: &Field,
    members: &mut [Member],
    goal: u64,
    sweeps: u32,
    observer: &W,
)
    requires members { AreMembersOf field.now members.old }
    requires in_time { goal ≤ field.now.terms.setup.now.net.steps }
    ensures driven { AreDriven field.now goal sweeps members.old members.new }
    ensures told { AreMembersTold (W.told_held observer.now (cut_run field.now.terms.setup.now)) (W.told_freed observer.now (cut_run field.now.terms.setup.now)) members.old members.new }
{
    let threads = members.len().max(1);
    let work = move |_k: usize, member: &mut Member|
        requires { IsMemberOf field.now member.old × (goal ≤ field.now.terms.setup.now.net.steps) }
        ensures { IsDriven field.entry.now goal sweeps member.old member.new × AreTold (W.told_held observer.entry.now (cut_run field.entry.now.terms.setup.now)) (W.told_freed observer.entry.now (cut_run field.entry.now.terms.setup.now)) member.old.pass.knows.log member.new.pass.knows.log }
    { drive_member(field, member, goal, sweeps, observer) };
    for_each_mut(rt, members, threads, &work);
}

// Drives with a member's pass.
fn drive_member<W: Observer>(
    field: &Field,
    member: &mut Member,
    goal: u64,
    sweeps: u32,
    observer: &W,
)
    requires member { IsMemberOf field.now member.old }
    requires in_time { goal ≤ field.now.terms.setup.now.net.steps }
    ensures driven { IsDriven field.now goal sweeps member.old member.new }
    ensures told { AreTold (W.told_held observer.now (cut_run field.now.terms.setup.now)) (W.told_freed observer.now (cut_run field.now.terms.setup.now)) member.old.pass.knows.log member.new.pass.knows.log }
{
    let first = member.first;
    member.driven = drive(field, &mut member.pass, goal, sweeps, first, observer);
}
