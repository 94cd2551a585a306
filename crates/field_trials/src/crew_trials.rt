ghost use Rattle.std.specs.Prelude.{◌≡◌, ◌≤◌};
ghost use Rattle.region_slots.specs.FieldView.{IsPassOf};

use crate::meeting::Meeting;
use region_slots::{Field, Pass};
use std::process::Abort;
use std::thread::Threads;
use sweeping_crew::crew;
use worker_claim::{Driven, Member};

// How many turns moved their region, found it behind, or found it at the goal, and whether all of a sweep did that.
pub(crate) fn counts(moved: u64, behind: u64, ended: u64, all: bool) -> Driven {
    Driven {
        moved,
        held: 0,
        behind,
        ended,
        all,
    }
}

// Two members of a crew that sweeps work at once.
pub(crate) fn two_members<R: Abort + Threads + Sync>(
    rt: &R,
    field: Field,
    mut pass: Pass,
    last: u64,
)
    requires belongs { IsPassOf field pass }
    requires two { pass.knows.share ≡ 2 }
    requires in_time { last ≤ field.terms.setup.now.net.steps }
{
    let observer = Meeting::new();
    let other = field.share(&mut pass);
    assert!(rt; field.regions() == 4);
    let mut members = [Member::new(pass, 0), Member::new(other, 2)];
    crew(rt, &field, &mut members, last, 64, &observer);
    assert!(rt; observer.took_place());
}
