ghost use Rattle.std.specs.Prelude.{◌≡◌, ℕ, ◌+◌, ◌*◌, ◌/◌, ◌<◌, ◌≤◌, ◌^◌, ◌⊎◌, min};
ghost use Rattle.diverge_rule.specs.Diverge.{diverge_of};
ghost use Rattle.diverge_rule.specs.Allowed.{IsAllowed};

use crate::split::Split;

/// What a sender of `s` parts sends into branches with room for `r1` and `r2` parts in one step.
///
/// `b1` and `b2` are the turning shares, 1 to 1,000 each in a network. A rest of fewer than `b1 + b2` parts stays.
pub fn diverge_flow(s: u64, r1: u64, r2: u64, b1: u32, b2: u32) -> Split
    requires first_turns { 1 ≤ b1 }
    requires second_turns { 1 ≤ b2 }
    ensures rule { result ≡ diverge_of s r1 r2 b1 b2 }

    // As many whole parts go as the sender and both branches allow, and not one more.
    ensures allowed { IsAllowed s r1 r2 b1 b2 result.parts }
    ensures greatest { (k : ℕ) → IsAllowed s r1 r2 b1 b2 k → k ≤ result.parts }

    // What leaves in all is what enters in all, in the ratio of the turning shares.
    ensures conserved { result.out ≡ result.to1 + result.to2 }
    ensures ratio { result.to1 * b2 ≡ result.to2 * b1 }

    // What leaves a cell is at most its sending flow, and what enters is at most its receiving flow.
    ensures sends { result.out ≤ s }
    ensures first_receives { result.to1 ≤ r1 }
    ensures second_receives { result.to2 ≤ r2 }

    // A blocked branch holds the other back.
    ensures blocked { (r1 < b1) ⊎ (r2 < b2) → result.out ≡ 0 }
{
    let (share1, share2) = (b1 as u64, b2 as u64);
    let parts = parts_within(s / (share1 + share2), r1, r2, share1, share2);
    Split::of(parts, share1, share2)
}

/// The same of a sender that has both turning shares whole so many times. Where that is known mostly nothing is divided.
pub fn diverge_by_whole(whole: u64, r1: u64, r2: u64, b1: u32, b2: u32) -> Split
    requires first_turns { 1 ≤ b1 }
    requires second_turns { 1 ≤ b2 }
    requires fits { whole * (b1 + b2) < 2 ^ 64 }
    ensures { (s : ℕ) → whole ≡ s / (b1 + b2) → result ≡ diverge_of s r1 r2 b1 b2 }
{
    let (share1, share2) = (b1 as u64, b2 as u64);
    let parts = parts_within(whole, r1, r2, share1, share2);
    Split::of(parts, share1, share2)
}

// As many of these parts as both branches have room for.
fn parts_within(whole: u64, r1: u64, r2: u64, share1: u64, share2: u64) -> u64
    requires first { 1 ≤ share1 }
    requires second { 1 ≤ share2 }
    requires fits { whole * (share1 + share2) < 2 ^ 64 }
    ensures { result ≡ min (min whole (r1 / share1)) (r2 / share2) }
{
    within(within(whole, r1, share1), r2, share2)
}

// As many of these parts as one branch has room for, mostly all: then nothing is divided.
#[tactic(auto, using(crate::proofs::DivergeFacts::all_within, crate::proofs::DivergeFacts::room_within))]
fn within(parts: u64, room: u64, share: u64) -> u64
    requires some { 1 ≤ share }
    requires fits { parts * share < 2 ^ 64 }
    ensures { result ≡ min parts (room / share) }
{
    if parts * share <= room {
        return parts;
    }
    room / share
}
