ghost use Rattle.std.specs.Prelude.{◌≤◌, ◌<◌, ◌≡◌, ◌+◌, ◌^◌};
ghost use Rattle.std.specs.Option.{ForSome};
ghost use Rattle.ordinary_link.specs.Rooms.{IsRoomHolding};
ghost use Rattle.connector_flow.specs.Space.{IsSpaceOf, let_in};

use crate::ratio::Ratio;
use ordinary_link::{MOST_PARTS, Room};

/// A cell without a room lets in all that comes as long as it holds no more than this in all, in parts.
pub(crate) const BOUNDLESS: u64 = 4_611_686_018_427_387_904;

/// The room of a cell, as a flow asks for it: with a factor in place of the ratio, so that no step divides.
#[derive(Clone, Copy)]
pub struct Space {
    /// The most parts that the cell holds, and one more where its ratio is 1.
    pub storage: u64,
    /// The factor of its ratio, of 2^64; `u64::MAX` where the ratio is 1 or there is no room.
    pub factor: u64,
}

impl Space {
    /// The space of a cell with this room, or of one without a room.
    pub fn of(room: Option<Room>) -> Space
        requires ratio { ForSome room (IsRoomHolding 0) }
        requires amount { ForSome room (λ r. r.most ≤ MOST_PARTS) }
        ensures { IsSpaceOf result room }
    {
        match room {
            None => Space {
                storage: BOUNDLESS + 1,
                factor: u64::MAX,
            },
            Some(room) => Space::of_road(room),
        }
    }

    // The space of a road. `2^64 - 1` stands for a ratio of 1, which takes one part of the product.
    fn of_road(room: Room) -> Space
        requires ratio { IsRoomHolding 0 room }
        requires amount { room.most ≤ MOST_PARTS }
        ensures { IsSpaceOf result (Some room) }
    {
        if room.num == room.den {
            Space {
                storage: room.most + 1,
                factor: u64::MAX,
            }
        } else {
            Space {
                storage: room.most,
                factor: Ratio::new(room.num, room.den).whole_factor(),
            }
        }
    }

    /// What the empty space of a cell that holds `n` parts lets in.
    #[inline(always)]
    pub fn let_in(self, n: u64) -> u64
        requires fits { n ≤ self.storage }
        ensures flow { result ≡ let_in self n }
        ensures in_room { n + result ≤ self.storage }
        ensures fits { n + result < 2 ^ 64 }
    {
        let wide = u128::from(self.storage - n) * u128::from(self.factor);
        (wide >> 64) as u64
    }
}
