ghost use Rattle.std.specs.Prelude.{◌≡◌, ℕ, ◌+◌, ◌<◌, ◌≤◌, false, length, slice_index, slice_index_or, if◌then◌else◌};

use std::simd::prelude::*;

// The eight marks from `at` on as lanes: 1 where a mark is set, else 0.
pub(crate) fn mark_lanes(at: usize, marks: &[bool]) -> u64x8
    requires room { at + 8 ≤ length marks.now }
    ensures len { length result ≡ 8 }
    ensures lanes { (k : ℕ) → k < 8 → slice_index result k ≡ (if slice_index_or marks.now (at + k) false then 1 else 0) }
{
    let mut lanes = [0; 8];
    for k in 0..8 {
        lanes[k] = u64::from(marks[at + k]);
    }
    u64x8::from_array(lanes)
}
