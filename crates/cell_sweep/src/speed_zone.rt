ghost use Rattle.std.specs.Prelude.{◌≡◌, ◌+◌, ◌-◌, ◌*◌, ◌/◌, ◌<◌, ◌≤◌, ◌↔◌, ℕ, All, IfOk, IsTrue, length};
ghost use Rattle.cell_sweep.specs.SpeedZones.{AreZones, is_all_slow_four, is_slow_four};
ghost use Rattle.cell_sweep.specs.Speeds.{is_slow};

use crate::slow_cell::is_slow;
use network_file::Net;
use no_memory::NoMemory;
use std::alloc::Global;

/// Fours of cells side by side, each with a cell that has speed records: from one up to another. The `m`-th four begins at
/// place `4 * m`.
#[derive(Clone, Copy)]
pub struct SpeedZone {
    /// The first of them.
    pub from: usize,
    /// The one behind the last.
    pub to: usize,
    /// Whether each cell of the zone has speed records.
    pub all_slow: bool,
}

/// The zones of these cells, as they are placed, in the whole fours before the last cell, out of which no link to a next one
/// leads.
pub fn zones_of(alloc: Global, net: &Net, cells: &[u32]) -> Result<Vec<SpeedZone>, NoMemory>
    requires there { All (λ i. i < length net.now.cells) cells.now }
    ensures { IfOk result (λ zones. AreZones (is_slow net.now cells.now) ((length cells.now - 1) / 4) zones.items) }
{
    let fours = cells.len().saturating_sub(1) / 4;
    let mut zones = Vec::new(alloc);
    // The fours from here on are alike so far.
    let mut from = 0;
    let mut slow = false;
    let mut all_slow = false;
    for m in 0..fours {
        let some = is_slow_four(net, cells, m);
        let all = is_all_slow_four(net, cells, m);
        if !alike(some, all, slow, all_slow) {
            if slow {
                zones.push(SpeedZone {
                    from,
                    to: m,
                    all_slow,
                })?;
            }
            from = m;
            slow = some;
            all_slow = all;
        }
    }
    if slow {
        zones.push(SpeedZone {
            from,
            to: fours,
            all_slow,
        })?;
    }
    Ok(zones)
}

// Whether a four is like those before: both have a slow cell or neither does, and all cells of both are slow or not.
fn alike(some: bool, all: bool, slow: bool, all_slow: bool) -> bool
    ensures { IsTrue result ↔ (some ≡ slow) × (all ≡ all_slow) }
{
    some == slow && all == all_slow
}

// Whether a cell of the `m`-th four has speed records and is no exit.
fn is_slow_four(net: &Net, cells: &[u32], m: usize) -> bool
    requires within { 4 * m + 4 ≤ length cells.now }
    requires there { All (λ i. i < length net.now.cells) cells.now }
    ensures { result ≡ is_slow_four (is_slow net.now cells.now) m }
{
    let p = 4 * m;
    is_slow(net, cells, p)
        || is_slow(net, cells, p + 1)
        || is_slow(net, cells, p + 2)
        || is_slow(net, cells, p + 3)
}

// Whether each cell of the `m`-th four has speed records and is no exit.
fn is_all_slow_four(net: &Net, cells: &[u32], m: usize) -> bool
    requires within { 4 * m + 4 ≤ length cells.now }
    requires there { All (λ i. i < length net.now.cells) cells.now }
    ensures { result ≡ is_all_slow_four (is_slow net.now cells.now) m }
{
    let p = 4 * m;
    is_slow(net, cells, p)
        && is_slow(net, cells, p + 1)
        && is_slow(net, cells, p + 2)
        && is_slow(net, cells, p + 3)
}
