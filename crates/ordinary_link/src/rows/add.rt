ghost use Rattle.std.specs.Prelude.{◌≡◌, ℕ, ◌+◌, ◌^◌, ◌<◌, ◌≤◌, length, slice_index};
ghost use Rattle.ordinary_link.specs.Row.{Sets};

use std::simd::prelude::*;

// Adds to the eight places of `total` from `at` on.
pub(crate) fn add_lanes(at: usize, more: &[u64], total: &mut [u64])
    requires len { length more.now ≡ length total.old }
    requires room { at + 8 ≤ length total.old }
    requires sums { (i : ℕ) → at ≤ i → i < length total.old → slice_index total.old i + slice_index more.now i < 2 ^ 64 }
    ensures { Sets at (at + 8) (λ i. slice_index total.old i + slice_index more.now i) total.old total.new }
{
    let sum = u64x8::from_slice(&total[at..]) + u64x8::from_slice(&more[at..]);
    sum.copy_to_slice(&mut total[at..]);
}

// Adds to the places of `total` from `at` to the end.
pub(crate) fn add_rest(at: usize, more: &[u64], total: &mut [u64])
    requires len { length more.now ≡ length total.old }
    requires sums { (i : ℕ) → at ≤ i → i < length total.old → slice_index total.old i + slice_index more.now i < 2 ^ 64 }
    ensures { Sets at (length total.old) (λ i. slice_index total.old i + slice_index more.now i) total.old total.new }
{
    for i in at..total.len() {
        total[i] += more[i];
    }
}
