ghost use Rattle.std.specs.Prelude.{◌≡◌, ℕ, ◌+◌, ◌^◌, ◌<◌, ◌≤◌, false, length, slice_index, slice_index_or};
ghost use Rattle.ordinary_link.specs.Row.{Sets};
ghost use Rattle.ordinary_link.specs.Waiting.{wait_after};

use crate::rows::marks::mark_lanes;
use std::simd::prelude::*;

// How long the cells' parts have waited, at the eight places from `at` on.
pub(crate) fn wait_lanes(at: usize, n: &[u64], out: &[u64], waits: &[bool], wait: &mut [u64])
    requires n_len { length n.now ≡ length wait.old }
    requires out_len { length out.now ≡ length wait.old }
    requires waits_len { length waits.now ≡ length wait.old }
    requires room { at + 8 ≤ length wait.old }
    requires within { (i : ℕ) → at ≤ i → i < length wait.old → slice_index out.now i ≤ slice_index n.now i }
    requires sums { (i : ℕ) → at ≤ i → i < length wait.old
        → wait_after (slice_index wait.old i) (slice_index n.now i) (slice_index out.now i) (slice_index_or waits.now i false) < 2 ^ 64 }
    ensures { Sets at (at + 8)
        (λ i. wait_after (slice_index wait.old i) (slice_index n.now i) (slice_index out.now i) (slice_index_or waits.now i false))
        wait.old wait.new }
{
    let none = u64x8::splat(0);
    let stay = u64x8::from_slice(&n[at..]) - u64x8::from_slice(&out[at..]);
    let more = mark_lanes(at, waits).simd_eq(none).select(none, stay);
    let next = u64x8::from_slice(&wait[at..]) + more;
    next.copy_to_slice(&mut wait[at..]);
}

// How long the cells' parts have waited, at the places from `at` to the end.
pub(crate) fn wait_rest(at: usize, n: &[u64], out: &[u64], waits: &[bool], wait: &mut [u64])
    requires n_len { length n.now ≡ length wait.old }
    requires out_len { length out.now ≡ length wait.old }
    requires waits_len { length waits.now ≡ length wait.old }
    requires within { (i : ℕ) → at ≤ i → i < length wait.old → slice_index out.now i ≤ slice_index n.now i }
    requires sums { (i : ℕ) → at ≤ i → i < length wait.old
        → wait_after (slice_index wait.old i) (slice_index n.now i) (slice_index out.now i) (slice_index_or waits.now i false) < 2 ^ 64 }
    ensures { Sets at (length wait.old)
        (λ i. wait_after (slice_index wait.old i) (slice_index n.now i) (slice_index out.now i) (slice_index_or waits.now i false))
        wait.old wait.new }
{
    for i in at..wait.len() {
        if waits[i] {
            wait[i] += n[i] - out[i];
        }
    }
}
