ghost use Rattle.std.specs.Prelude.{◌≡◌, ◌≤◌, ◌<◌, ◌⊎◌, ℕ, All, length};
ghost use Rattle.cell_sweep.specs.CellStates.{cell_state_at};
ghost use Rattle.timelines.specs.Links.{most_at};
ghost use Rattle.region_body.specs.FollowedLinks.{AreFollowed, IsChanged, IsLinkThere, IsUnchanged};

use cell_sweep::CellState;
use step_plan::MOST_STEPS;
use timelines::LinkTimeline;

/// A link between neighbours, and when the most that it carries changes next.
#[derive(Drop)]
pub(crate) struct FollowedLink {
    /// The place of the cell that it leads out of.
    pub(crate) place: u32,
    /// The most that it carries doesn't change before this step.
    pub(crate) until: u64,
    /// The timeline of the most that it carries.
    pub(crate) timeline: LinkTimeline,
}

/// Writes the changes that are due at step `t`: each state then has the most that its link carries in that step.
pub(crate) fn refresh(links: &mut [FollowedLink], states: &mut [CellState], t: u64)
    requires there { All (IsLinkThere (length states.old) t) links.old }
    requires in_time { t ≤ MOST_STEPS }
    ensures there { All (IsLinkThere (length states.old) t) links.new }

    // Where the links follow `most`, each state has the most of step t, and the links still follow it.
    ensures most { (most : ℕ → ℕ → ℕ) → AreFollowed most states.old links.old t → (p : ℕ) → p < length states.old →
        cell_state_at states.new p ≡ record (cell_state_at states.old p) { most = most p t } }
    ensures followed { (most : ℕ → ℕ → ℕ) → AreFollowed most states.old links.old t → AreFollowed most states.new links.new t }
{
    for m in 0..links.len() {
        let p = links[m].place as usize;
        refresh_link(&mut links[m], &mut states[p], t);
    }
}

// Where the link changes by step `t`, its state gets the most of that step.
fn refresh_link(link: &mut FollowedLink, state: &mut CellState, t: u64)
    requires step { link.old.timeline.step ≤ t }
    requires in_time { t ≤ MOST_STEPS }
    ensures its { link.new.place ≡ link.old.place }
    ensures step { link.new.timeline.step ≤ t }
    ensures timeline { (s : ℕ) → most_at link.new.timeline s ≡ most_at link.old.timeline s }
    ensures only_most { state.new ≡ record state.old { most = state.new.most } }
    ensures most { IsUnchanged link.old link.new state.old state.new t ⊎ IsChanged link.old link.new state.new t }
{
    if link.until <= t {
        let now = link.timeline.move_to(t);
        link.until = now.until;
        state.most = now.value;
    }
}
