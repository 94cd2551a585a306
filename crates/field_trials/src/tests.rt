use crate::help_trials::Way;
use crate::networks::{FOUR_REGIONS, TWO_REGIONS};
use crate::trial::{Trial, on_field};
use std::test::Fail;

#[test]
fn a_region_waits_for_the_one_behind_it(rt: HostRuntime) -> Result<(), Fail> {
    on_field(&rt, rt.alloc(), TWO_REGIONS, Trial::Turns)
}

#[test]
fn a_region_that_is_held_is_held_for_others_alone(rt: HostRuntime) -> Result<(), Fail> {
    on_field(&rt, rt.alloc(), TWO_REGIONS, Trial::HeldForOthers)
}

#[test]
fn held_is_told_before_a_neighbours_step_is_read(rt: HostRuntime) -> Result<(), Fail> {
    on_field(&rt, rt.alloc(), TWO_REGIONS, Trial::HeldBeforeNeighbours)
}

#[test]
fn a_shared_pass_sees_what_the_other_has_published(rt: HostRuntime) -> Result<(), Fail> {
    on_field(&rt, rt.alloc(), TWO_REGIONS, Trial::SharedPass)
}

#[test]
fn a_busy_shot_holds_and_shows_nothing(rt: HostRuntime) -> Result<(), Fail> {
    on_field(&rt, rt.alloc(), TWO_REGIONS, Trial::BusyShots)
}

#[test]
fn two_members_work_at_once(rt: HostRuntime) -> Result<(), Fail> {
    on_field(&rt, rt.alloc(), FOUR_REGIONS, Trial::TwoMembers)
}

#[test]
fn two_helpers_work_at_once(rt: HostRuntime) -> Result<(), Fail> {
    on_field(&rt, rt.alloc(), FOUR_REGIONS, Trial::TwoHelpers)
}

#[test]
fn a_helper_works_at_the_regions_whose_numbers_it_has(rt: HostRuntime) -> Result<(), Fail> {
    for ((other, own), (first, goal, sweeps), (moved, behind, ended, all), worked) in [
        // It has numbers of its own, and steals where it has none.
        ((NOBODY, ONE), (0, 1, 1), (2, 0, 2, false), 34),
        ((ZERO, NOBODY), (2, 1, 1), (2, 0, 2, false), 12),
        // What was there before is taken out.
        ((NOBODY, BOTH), (0, 1, 1), (2, 0, 2, false), 34),
        // Where all numbers are gone, it sweeps until all of a sweep are at the goal.
        ((NOBODY, ONE), (0, 1, 2), (4, 0, 4, false), 3412),
        ((NOBODY, ONE), (0, 1, 9), (4, 0, 8, true), 3412),
        // The number of a region that is behind goes back, and another nest's comes first.
        ((NOBODY, ONE), (0, 2, 2), (3, 4, 1, false), 3_434_333),
        ((ZERO, ONE), (0, 2, 1), (3, 1, 0, false), 3431),
    ] {
        let way = Way {
            other,
            own,
            first,
            goal,
            sweeps,
            moved,
            behind,
            ended,
            all,
            worked,
        };
        on_field(&rt, rt.alloc(), FOUR_REGIONS, Trial::AHelperAlone(way))?;
    }
    Ok(())
}

// The members for whom a nest is filled.
const NOBODY: &[u32] = &[];

const ZERO: &[u32] = &[0];

const ONE: &[u32] = &[1];

const BOTH: &[u32] = &[0, 1];
