ghost use Rattle.std.specs.Prelude.{◌≡◌, ℕ, ◌+◌, ◌*◌, ◌/◌, ◌<◌, ◌≤◌, ◌^◌};
ghost use Rattle.merge_rule.specs.Merge.{first_share};
ghost use Rattle.flow_model.specs.Flows.{diverge_carries, link_carries, merge_carries};

use diverge_rule::{Split, diverge_by_whole, diverge_flow};
use merge_rule::{merge_by_share, merge_flow};
use ordinary_link::link_flow;

/// What a connector carries in one step, in parts; a second cell that is missing has 0.
#[derive(Clone, Copy, Debug, PartialEq, Eq)]
pub struct Flow {
    /// What leaves the first cell upstream.
    pub out1: u64,
    /// What leaves the second cell upstream.
    pub out2: u64,
    /// What enters the first cell downstream.
    pub in1: u64,
    /// What enters the second cell downstream.
    pub in2: u64,
}

impl Flow {
    /// What a link carries from a cell that can send `s` parts to one that can receive `r`.
    pub fn of_link(s: u64, r: u64) -> Flow
        ensures { result ≡ link_carries s r }
    {
        let carried = link_flow(s, r);
        Flow {
            out1: carried,
            out2: 0,
            in1: carried,
            in2: 0,
        }
    }

    /// What a merge carries from cells that can send `s1` and `s2` parts, with priorities `p1` and `p2`, to one that can
    /// receive `r`.
    pub fn of_merge(s1: u64, s2: u64, r: u64, p1: u32, p2: u32) -> Flow
        requires { 1 ≤ p1 + p2 }
        ensures { result ≡ merge_carries s1 s2 r p1 p2 }
    {
        Flow::of_outs(merge_flow(s1, s2, r, p1, p2))
    }

    /// The same where the first cell's share of the room by the priorities is known.
    pub fn of_merge_by_share(s1: u64, s2: u64, r: u64, share: u64) -> Flow
        requires { share ≤ r }
        ensures { (p1 p2 : ℕ) → 1 ≤ p1 + p2 → share ≡ first_share r p1 p2 → result ≡ merge_carries s1 s2 r p1 p2 }
    {
        Flow::of_outs(merge_by_share(s1, s2, r, share))
    }

    // So much leaves the cells upstream, and all of it enters the first cell downstream.
    fn of_outs(outs: (u64, u64)) -> Flow
        requires { outs.0 + outs.1 < 2 ^ 64 }
        ensures { result ≡ record { out1 = outs.0; out2 = outs.1; in1 = outs.0 + outs.1; in2 = 0 } }
    {
        let (out1, out2) = outs;
        Flow {
            out1,
            out2,
            in1: out1 + out2,
            in2: 0,
        }
    }

    /// What a diverge carries from a cell that can send `s` parts, by turning shares `b1` and `b2`, to cells that can receive
    /// `r1` and `r2`.
    pub fn of_diverge(s: u64, r1: u64, r2: u64, b1: u32, b2: u32) -> Flow
        requires first { 1 ≤ b1 }
        requires second { 1 ≤ b2 }
        ensures { result ≡ diverge_carries s r1 r2 b1 b2 }
    {
        Flow::of_split(diverge_flow(s, r1, r2, b1, b2))
    }

    /// The same from a cell that has both turning shares whole so many times.
    pub fn of_diverge_by_whole(whole: u64, r1: u64, r2: u64, b1: u32, b2: u32) -> Flow
        requires first { 1 ≤ b1 }
        requires second { 1 ≤ b2 }
        requires fits { whole * (b1 + b2) < 2 ^ 64 }
        ensures { (s : ℕ) → whole ≡ s / (b1 + b2) → result ≡ diverge_carries s r1 r2 b1 b2 }
    {
        Flow::of_split(diverge_by_whole(whole, r1, r2, b1, b2))
    }

    // The first cell upstream divides so.
    fn of_split(split: Split) -> Flow
        ensures { result ≡ record { out1 = split.out; out2 = 0; in1 = split.to1; in2 = split.to2 } }
    {
        Flow {
            out1: split.out,
            out2: 0,
            in1: split.to1,
            in2: split.to2,
        }
    }
}
