ghost use Rattle.std.specs.Prelude.{◌≡◌, ◌+◌, ◌≤◌, length};
ghost use Rattle.step_plan.specs.Limits.{most_steps};
ghost use Rattle.traffic_laws.specs.Area.{IsWaitOfCell, NeverCross, area_between};
ghost use Rattle.traffic_laws.specs.Waits.{IsWaitOfParts};

/// The area between the curves of a cell, in parts times steps: what had come at each step, and what had gone at the
/// next one. `first` is what the cell held at step 0; the curves have all that has come and gone by the steps 0, 1 and so
/// on. A strip in which more goes than had come counts below 0.
#[tactic(auto, unfolding(crate::specs::Area::area_between))]
pub fn wait_area(first: u64, come: &[u64], gone: &[u64]) -> i128
    requires same_steps { length gone.now ≡ length come.now }
    requires few_steps { length come.now ≤ most_steps + 1 }
    ensures area { result ≡ area_between first come.now gone.now }

    // Of the curves of a cell of a network it is the cell's wait, and what its parts have waited, added up; and no strip
    // counts below 0.
    ensures wait { IsWaitOfCell first come.now gone.now result }
    ensures parts { IsWaitOfParts first come.now gone.now result }
    ensures never_cross { NeverCross first come.now gone.now }
{
    let mut arrived = 0u128;
    let mut departed = 0u128;
    for s in 0..come.len().saturating_sub(1) {
        arrived += u128::from(first) + u128::from(come[s]);
        departed += u128::from(gone[s + 1]);
    }
    arrived as i128 - departed as i128
}
