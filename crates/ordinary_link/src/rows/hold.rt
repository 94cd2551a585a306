ghost use Rattle.std.specs.Prelude.{◌≡◌, ℕ, ◌+◌, ◌-◌, ◌^◌, ◌<◌, ◌≤◌, length, slice_index};
ghost use Rattle.ordinary_link.specs.Row.{Sets};

use std::simd::prelude::*;

// What the cells hold next, at the eight places from `at` on.
pub(crate) fn hold_lanes(at: usize, enter: &[u64], out: &[u64], n: &mut [u64])
    requires enter_len { length enter.now ≡ length n.old }
    requires out_len { length out.now ≡ length n.old }
    requires room { at + 8 ≤ length n.old }
    requires within { (i : ℕ) → at ≤ i → i < length n.old → slice_index out.now i ≤ slice_index n.old i }
    requires held { (i : ℕ) → at ≤ i → i < length n.old → slice_index n.old i + slice_index enter.now i - slice_index out.now i < 2 ^ 64 }
    ensures { Sets at (at + 8) (λ i. slice_index n.old i + slice_index enter.now i - slice_index out.now i) n.old n.new }
{
    let stay = u64x8::from_slice(&n[at..]) - u64x8::from_slice(&out[at..]);
    let next = stay + u64x8::from_slice(&enter[at..]);
    next.copy_to_slice(&mut n[at..]);
}

// What the cells hold next, at the places from `at` to the end.
pub(crate) fn hold_rest(at: usize, enter: &[u64], out: &[u64], n: &mut [u64])
    requires enter_len { length enter.now ≡ length n.old }
    requires out_len { length out.now ≡ length n.old }
    requires within { (i : ℕ) → at ≤ i → i < length n.old → slice_index out.now i ≤ slice_index n.old i }
    requires held { (i : ℕ) → at ≤ i → i < length n.old → slice_index n.old i + slice_index enter.now i - slice_index out.now i < 2 ^ 64 }
    ensures { Sets at (length n.old) (λ i. slice_index n.old i + slice_index enter.now i - slice_index out.now i) n.old n.new }
{
    for i in at..n.len() {
        n[i] = n[i] - out[i] + enter[i];
    }
}
