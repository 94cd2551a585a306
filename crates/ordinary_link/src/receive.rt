ghost use Rattle.std.specs.Prelude.{◌≡◌, ◌≤◌, ◌+◌};
ghost use Rattle.std.specs.Option.{ForSome};
ghost use Rattle.ordinary_link.specs.Flows.{receiving_flow};
ghost use Rattle.ordinary_link.specs.Rooms.{IsRoomHolding};

use crate::space::Room;
use fixed_flow::MOST_PARTS;

/// What a cell that holds `n` parts can receive in a step whose capacity is `q` parts: `R` of
/// Daganzo (1995). A cell without a room receives up to its capacity, however much it holds.
pub fn receiving(n: u64, q: u64, room: Option<Room>) -> u64
    requires fits { ForSome room (IsRoomHolding n) }
    requires amount { ForSome room (λ r. r.most ≤ MOST_PARTS) }
    ensures flow { result ≡ receiving_flow n q room }
    ensures capacity { result ≤ q }
    ensures in_room { ForSome room (λ r. n + result ≤ r.most) }
{
    match room {
        None => q,
        Some(room) => q.min(room.space_flow(n)),
    }
}
