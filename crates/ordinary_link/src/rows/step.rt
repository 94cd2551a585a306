ghost use Rattle.std.specs.Prelude.{◌≡◌, ℕ, ◌+◌, ◌-◌, ◌^◌, ◌<◌, ◌≤◌, false, length, slice_index, slice_index_or};
ghost use Rattle.ordinary_link.specs.Waiting.{wait_after};

use crate::rows::add::{add_lanes, add_rest};
use crate::rows::hold::{hold_lanes, hold_rest};
use crate::rows::wait::{wait_lanes, wait_rest};

/// Takes many cells through a step, in which `enter` comes into each and `out` leaves it: what it
/// holds, all that came and went so far, and how long its parts waited, where they wait in it.
pub fn step_row(
    n: &mut [u64],
    come: &mut [u64],
    gone: &mut [u64],
    wait: &mut [u64],
    enter: &[u64],
    out: &[u64],
    waits: &[bool],
)
    requires come_len { length come.old ≡ length n.old }
    requires gone_len { length gone.old ≡ length n.old }
    requires wait_len { length wait.old ≡ length n.old }
    requires enter_len { length enter.now ≡ length n.old }
    requires out_len { length out.now ≡ length n.old }
    requires waits_len { length waits.now ≡ length n.old }
    requires within { (i : ℕ) → i < length n.old → slice_index out.now i ≤ slice_index n.old i }
    requires holds { (i : ℕ) → i < length n.old → slice_index n.old i + slice_index enter.now i - slice_index out.now i < 2 ^ 64 }
    requires comes { (i : ℕ) → i < length n.old → slice_index come.old i + slice_index enter.now i < 2 ^ 64 }
    requires goes { (i : ℕ) → i < length n.old → slice_index gone.old i + slice_index out.now i < 2 ^ 64 }
    requires waiting { (i : ℕ) → i < length n.old
        → wait_after (slice_index wait.old i) (slice_index n.old i) (slice_index out.now i) (slice_index_or waits.now i false) < 2 ^ 64 }
    ensures held { (i : ℕ) → i < length n.new → slice_index n.new i ≡ slice_index n.old i + slice_index enter.now i - slice_index out.now i }
    ensures came { (i : ℕ) → i < length come.new → slice_index come.new i ≡ slice_index come.old i + slice_index enter.now i }
    ensures went { (i : ℕ) → i < length gone.new → slice_index gone.new i ≡ slice_index gone.old i + slice_index out.now i }
    ensures stayed { (i : ℕ) → i < length wait.new
        → slice_index wait.new i ≡ wait_after (slice_index wait.old i) (slice_index n.old i) (slice_index out.now i) (slice_index_or waits.now i false) }
    ensures n_len { length n.new ≡ length n.old }
    ensures come_len { length come.new ≡ length come.old }
    ensures gone_len { length gone.new ≡ length gone.old }
    ensures wait_len { length wait.new ≡ length wait.old }
{
    let mut at = 0;
    while n.len() - at >= 8 {
        wait_lanes(at, n, out, waits, wait);
        add_lanes(at, enter, come);
        add_lanes(at, out, gone);
        hold_lanes(at, enter, out, n);
        at += 8;
    }
    wait_rest(at, n, out, waits, wait);
    add_rest(at, enter, come);
    add_rest(at, out, gone);
    hold_rest(at, enter, out, n);
}
