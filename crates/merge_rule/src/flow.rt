ghost use Rattle.std.specs.Prelude.{◌≡◌, ℕ, ◌+◌, ◌-◌, ◌<◌, ◌≤◌, ◌↔◌, pos, ◌-ℤ◌};
ghost use Rattle.fixed_flow.specs.Middle.{middle_of};
ghost use Rattle.merge_rule.specs.Merge.{first_share, merge_of};
ghost use Rattle.merge_rule.specs.Exchange.{exchanged_merge_of, IsUnrounded};

use fixed_flow::share_floor;

/// What the first and the second sender, of `s1` and `s2` parts, send into a room of `r` parts in one step.
///
/// `p1` and `p2` are their priorities, 1 to 1,000 each in a network; of a merge with none the rule says nothing.
pub fn merge_flow(s1: u64, s2: u64, r: u64, p1: u32, p2: u32) -> (u64, u64)
    requires { 1 ≤ p1 + p2 }
    ensures flows { result ≡ merge_of s1 s2 r p1 p2 }
    ensures first_rule { r < s1 + s2 → pos result.0 ≡ middle_of (pos s1) (pos r -ℤ pos s2) (pos (first_share r p1 p2)) }
    ensures second_rule { r < s1 + s2 → pos result.1 ≡ middle_of (pos s2) (pos r -ℤ pos s1) (pos r -ℤ pos (first_share r p1 p2)) }

    // What leaves a cell is at most its sending flow, and what enters is at most its receiving flow.
    ensures first_sends { result.0 ≤ s1 }
    ensures second_sends { result.1 ≤ s2 }
    ensures receives { result.0 + result.1 ≤ r }

    ensures all_go { s1 + s2 ≤ r → (result.0 ≡ s1) × (result.1 ≡ s2) }
    ensures none_is_lost { r < s1 + s2 → result.0 + result.1 ≡ r }

    // With the senders exchanged each flow differs by one part at most, which the second has from the rounding.
    ensures exchanged_first { let other = exchanged_merge_of s1 s2 r p1 p2 in
        (result.0 ≤ other.0) × (other.0 ≤ result.0 + 1) }
    ensures exchanged_second { let other = exchanged_merge_of s1 s2 r p1 p2 in
        (other.1 ≤ result.1) × (result.1 ≤ other.1 + 1) }
    ensures exchanged_same { (result ≡ exchanged_merge_of s1 s2 r p1 p2) ↔ IsUnrounded s1 s2 r p1 p2 }
{
    let share = share_floor(r, p1 as u64, p1 as u64 + p2 as u64);
    merge_by_share(s1, s2, r, share)
}

/// The same where the first sender's share of the room by the priorities is known.
pub fn merge_by_share(s1: u64, s2: u64, r: u64, share: u64) -> (u64, u64)
    requires { share ≤ r }
    ensures flows { (p1 p2 : ℕ) → 1 ≤ p1 + p2 → share ≡ first_share r p1 p2 → result ≡ merge_of s1 s2 r p1 p2 }
    ensures receives { result.0 + result.1 ≤ r }
{
    // The middle of what the first sender has, of its share, and of what the other leaves, which is as good as 0 where it is
    // less; all that it has where there is room for all. The other has the rest of the room.
    let first = s1.min(share.max(r.saturating_sub(s2)));
    (first, s2.min(r - first))
}
