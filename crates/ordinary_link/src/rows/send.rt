ghost use Rattle.std.specs.Prelude.{◌≡◌, ℕ, ◌+◌, ◌<◌, ◌≤◌, false, length, slice_index, slice_index_or};
ghost use Rattle.ordinary_link.specs.Flows.{sending_flow};
ghost use Rattle.ordinary_link.specs.Row.{Sets};

use crate::rows::marks::mark_lanes;
use crate::send::sending;
use std::simd::prelude::*;

/// What each of many cells can send in a step: `sending` at each place of the slices.
pub fn send_row(n: &[u64], q: &[u64], green: &[bool], s: &mut [u64])
    requires n_len { length n.now ≡ length s.old }
    requires q_len { length q.now ≡ length s.old }
    requires green_len { length green.now ≡ length s.old }
    ensures flows { (i : ℕ) → i < length s.new
        → slice_index s.new i ≡ sending_flow (slice_index n.now i) (slice_index q.now i) (slice_index_or green.now i false) }
    ensures len { length s.new ≡ length s.old }
{
    let mut at = 0;
    while s.len() - at >= 8 {
        send_lanes(at, n, q, green, s);
        at += 8;
    }
    send_rest(at, n, q, green, s);
}

// The eight places from `at` on.
fn send_lanes(at: usize, n: &[u64], q: &[u64], green: &[bool], s: &mut [u64])
    requires n_len { length n.now ≡ length s.old }
    requires q_len { length q.now ≡ length s.old }
    requires green_len { length green.now ≡ length s.old }
    requires room { at + 8 ≤ length s.old }
    ensures { Sets at (at + 8)
        (λ i. sending_flow (slice_index n.now i) (slice_index q.now i) (slice_index_or green.now i false)) s.old s.new }
{
    let held = u64x8::from_slice(&n[at..]);
    let capacity = u64x8::from_slice(&q[at..]);
    let none = u64x8::splat(0);
    mark_lanes(at, green)
        .simd_eq(none)
        .select(none, capacity.simd_min(held))
        .copy_to_slice(&mut s[at..]);
}

// The places from `at` to the end.
fn send_rest(at: usize, n: &[u64], q: &[u64], green: &[bool], s: &mut [u64])
    requires n_len { length n.now ≡ length s.old }
    requires q_len { length q.now ≡ length s.old }
    requires green_len { length green.now ≡ length s.old }
    ensures { Sets at (length s.old)
        (λ i. sending_flow (slice_index n.now i) (slice_index q.now i) (slice_index_or green.now i false)) s.old s.new }
{
    for i in at..s.len() {
        s[i] = sending(n[i], q[i], green[i]);
    }
}
