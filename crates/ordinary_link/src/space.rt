ghost use Rattle.std.specs.Prelude.{◌≡◌, ◌≤◌, ◌+◌, ◌-◌, ◌*◌, ◌/◌};
ghost use Rattle.ordinary_link.specs.Rooms.{IsRoomHolding};

use fixed_flow::MOST_PARTS;

/// The room of a road cell: it holds at most `most` parts, and the backward wave runs at `num / den`
/// of the free speed.
#[derive(Clone, Copy, Debug, PartialEq, Eq)]
pub struct Room {
    /// The most that the road holds, in parts.
    pub most: u64,
    /// The numerator `A` of the ratio w/v.
    pub num: u32,
    /// The denominator `B` of the ratio, at least the numerator.
    pub den: u32,
}

impl Room {
    // A ratio of 1 needs no division, the dearest part of a step.
    pub(crate) fn space_flow(self, n: u64) -> u64
        requires fits { IsRoomHolding n self }
        requires amount { self.most ≤ MOST_PARTS }
        ensures flow { result ≡ self.num * (self.most - n) / self.den }
        ensures in_room { n + result ≤ self.most }
    {
        let space = self.most - n;
        if self.num == self.den {
            space
        } else {
            u64::from(self.num) * space / u64::from(self.den)
        }
    }
}
