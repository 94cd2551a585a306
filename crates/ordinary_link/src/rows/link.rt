ghost use Rattle.std.specs.Prelude.{◌≡◌, ℕ, ◌+◌, ◌<◌, ◌≤◌, length, min, slice_index};
ghost use Rattle.ordinary_link.specs.Row.{Sets};

use crate::link::link_flow;
use std::simd::prelude::*;

/// What each of many links carries in a step: `link_flow` at each place of the slices.
pub fn link_row(s: &[u64], r: &[u64], y: &mut [u64])
    requires s_len { length s.now ≡ length y.old }
    requires r_len { length r.now ≡ length y.old }
    ensures flows { (i : ℕ) → i < length y.new → slice_index y.new i ≡ min (slice_index s.now i) (slice_index r.now i) }
    ensures len { length y.new ≡ length y.old }
{
    let mut at = 0;
    while y.len() - at >= 8 {
        link_lanes(at, s, r, y);
        at += 8;
    }
    link_rest(at, s, r, y);
}

// The eight places from `at` on.
fn link_lanes(at: usize, s: &[u64], r: &[u64], y: &mut [u64])
    requires s_len { length s.now ≡ length y.old }
    requires r_len { length r.now ≡ length y.old }
    requires room { at + 8 ≤ length y.old }
    ensures { Sets at (at + 8) (λ i. min (slice_index s.now i) (slice_index r.now i)) y.old y.new }
{
    let sent = u64x8::from_slice(&s[at..]);
    let received = u64x8::from_slice(&r[at..]);
    sent.simd_min(received).copy_to_slice(&mut y[at..]);
}

// The places from `at` to the end.
fn link_rest(at: usize, s: &[u64], r: &[u64], y: &mut [u64])
    requires s_len { length s.now ≡ length y.old }
    requires r_len { length r.now ≡ length y.old }
    ensures { Sets at (length y.old) (λ i. min (slice_index s.now i) (slice_index r.now i)) y.old y.new }
{
    for i in at..y.len() {
        y[i] = link_flow(s[i], r[i]);
    }
}
