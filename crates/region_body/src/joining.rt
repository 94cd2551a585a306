ghost use Rattle.std.specs.Prelude.{◌≡◌, ◌+◌, ◌<◌, ◌≤◌, ℕ, All, OnOk, length};
ghost use Rattle.cell_sweep.specs.CellStates.{cell_state_at};
ghost use Rattle.region_body.specs.FollowedLinks.{AreFollowed, IsLinkThere};
ghost use Rattle.region_body.specs.Joining.{Extends, IsAt};

use crate::followed_link::FollowedLink;
use cell_sweep::CellState;
use network_file::Net;
use no_memory::NoMemory;
use std::alloc::Global;
use timelines::LinkTimeline;

/// Joins the `p`-th cell to the next by the link between them, from step `t` on. Where the most of the link
/// changes it is followed. Where memory is refused the cell may be joined already.
pub(crate) fn join_next(
    alloc: Global,
    net: &Net,
    t: u64,
    cells: &[u32],
    p: u32,
    states: &mut [CellState],
    links: &mut Vec<FollowedLink>,
) -> Result<(), NoMemory>
    requires in_time { t ≤ net.now.steps }
    requires within { p + 1 < length cells.now }
    requires there { All (λ i. i < length net.now.cells) cells.now }
    requires one_each { length states.old ≡ length cells.now }
    requires links { All (IsLinkThere (length states.old) t) links.old.items }
    ensures links { OnOk result (All (IsLinkThere (length states.old) t) links.new.items) }
    ensures at { OnOk result (IsAt p links.old.items links.new.items) }
    ensures only_most { (q : ℕ) → cell_state_at states.new q ≡ record (cell_state_at states.old q) { most = (cell_state_at states.new q).most } }
    ensures followed { OnOk result ((most later : ℕ → ℕ → ℕ) → AreFollowed most states.old links.old.items t →
        Extends net.now.plan cells.now p links.old.items most later → AreFollowed later states.new links.new.items t) }
{
    let _steps = net.steps;
    let (up, down) = (cells[p as usize], cells[p as usize + 1]);
    let mut timeline = LinkTimeline::new(alloc, &net.plan, up, down)?;
    let now = timeline.move_to(t);
    states[p as usize].most = now.value;
    if timeline.is_constant() {
        return Ok(());
    }
    links.push(FollowedLink {
        place: p,
        until: now.until,
        timeline,
    })?;
    Ok(())
}
