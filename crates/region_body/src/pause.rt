ghost use Rattle.std.specs.Prelude.{◌≡◌, ◌<◌, ◌≤◌, ◌⊎◌, ℕ, All, IsTrue, length};
ghost use Rattle.connector_flow.specs.Flows.{flow_at, no_flow};
ghost use Rattle.cell_sweep.specs.CellStates.{AreSound, cell_state_at};
ghost use Rattle.region_body.specs.Carrying.{three_held};
ghost use Rattle.region_body.specs.CellRefs.{IsWithin, held_in, ref_at};
ghost use Rattle.region_body.specs.Pausing.{AreIdle, IsIdleUntil};

use crate::followed_connector::FollowedConnector;
use crate::followed_link::FollowedLink;
use cell_sweep::{CellState, moving};
use connector_flow::Ratio;

/// For how long nothing moves among cells.
#[derive(Clone, Copy)]
pub(crate) struct Pause {
    /// The steps that they have waited through and that the sums of their states don't count yet.
    pub(crate) owed: u64,
    /// Before this step nothing moves among them, as long as their halo holds what it held when that was found and no gate
    /// demands anything.
    pub(crate) until: u64,
    /// The place of a cell out of which something moved, or may have.
    pub(crate) mover: usize,
}

impl Pause {
    /// The pause of cells among which something may move.
    pub(crate) const NONE: Pause = Pause {
        owed: 0,
        until: 0,
        mover: 0,
    };

    /// The pause of cells with these states and connectors as they are now, and with these speeds, which stay before a step. It
    /// is looked for from the place `mover` on.
    pub(crate) fn of(
        mover: usize,
        states: &[CellState],
        speeds: &[Ratio],
        speeds_until: u64,
        links: &[FollowedLink],
        connectors: &[FollowedConnector],
        put: &[Option<u64>],
    ) -> Pause
        requires sound { AreSound states.now }
        requires there { All (λ link. link.place < length states.now) links.now }
        requires cells { All (λ connector. (m : ℕ) → m < 3 → IsWithin (length states.now) put.now (ref_at connector.cells m)) connectors.now }
        ensures none_owed { result.owed ≡ 0 }
        ensures idle { (s : ℕ) → s < result.until → AreIdle states.now speeds.now speeds_until links.now connectors.now put.now result.until }
    {
        match moving(states, speeds, mover) {
            Some(mover) => Pause {
                owed: 0,
                until: 0,
                mover,
            },
            None => Pause {
                owed: 0,
                until: links_until(links, states)
                    .min(speeds_until)
                    .min(connectors_until(connectors, speeds, states, put)),
                mover,
            },
        }
    }
}

// The first change of a link out of a cell that holds something.
fn links_until(links: &[FollowedLink], states: &[CellState]) -> u64
    requires { All (λ link. link.place < length states.now) links.now }
    ensures { All (λ link. (cell_state_at states.now link.place).n ≡ 0 ⊎ result ≤ link.until) links.now }
{
    let mut until = u64::MAX;
    for link in links {
        if states[link.place as usize].n != 0 {
            until = until.min(link.until);
        }
    }
    until
}

// A step before which none of these connectors carries anything as long as their cells hold what they do and these speeds
// stay; 0 where one does.
fn connectors_until(
    connectors: &[FollowedConnector],
    speeds: &[Ratio],
    states: &[CellState],
    put: &[Option<u64>],
) -> u64
    requires { All (λ connector. (m : ℕ) → m < 3 → IsWithin (length states.now) put.now (ref_at connector.cells m)) connectors.now }
    ensures { All (IsIdleUntil speeds.now states.now put.now result) connectors.now }
{
    let mut until = u64::MAX;
    for connector in connectors {
        let n = connector.given(held_by(connector, states, put), speeds, states.len());
        until = until.min(connector.timeline.idle_until(n));
        if until == 0 {
            return 0;
        }
    }
    until
}

// What its cells hold.
fn held_by(connector: &FollowedConnector, states: &[CellState], put: &[Option<u64>]) -> [u64; 3]
    requires { (m : ℕ) → m < 3 → IsWithin (length states.now) put.now (ref_at connector.now.cells m) }
    ensures { result ≡ three_held connector.now (held_in states.now put.now) }
{
    let [a, b, c] = connector.cells;
    [
        a.held_in(states, put),
        b.held_in(states, put),
        c.held_in(states, put),
    ]
}

/// Whether two halos hold the same.
pub(crate) fn hold_the_same(seen: &[Option<u64>], put: &[Option<u64>]) -> bool
    requires { length seen.now ≡ length put.now }
    ensures { IsTrue result → seen.now ≡ put.now }
{
    for j in 0..seen.len() {
        if seen[j] != put[j] {
            return false;
        }
    }
    true
}

/// Notes what was put for the halo, where a pause lasts by it.
pub(crate) fn note_seen(lasts: bool, seen: &mut [Option<u64>], put: &[Option<u64>])
    requires one_each { length seen.old ≡ length put.now }
    ensures same { IsTrue lasts → seen.new ≡ put.now }
{
    if lasts {
        seen.copy_from_slice(put);
    }
}
