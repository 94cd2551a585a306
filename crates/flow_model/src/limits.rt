ghost use Rattle.std.specs.Prelude.{◌≡◌, ◌<◌, length};
ghost use Rattle.step_plan.specs.Speeds.{arriving};
ghost use Rattle.step_plan.specs.SpeedBounds.{IsSpeed};
ghost use Rattle.flow_model.specs.Limits.{room_of, sending_at, receiving_at};
ghost use Rattle.flow_model.specs.Bounds.{IsHeldInBounds};

use fixed_flow::share_floor;
use network_file::{Kind, Net};
use ordinary_link::{Room, receiving, sending};

/// The room of a cell of this kind. A road alone has one.
pub fn room_of(kind: Kind) -> Option<Room>
    ensures { result ≡ room_of kind }
{
    match kind {
        Kind::Road { room, num, den } => Some(Room {
            most: room,
            num,
            den,
        }),
        Kind::Gate | Kind::Exit => None,
    }
}

/// Of `n` parts those that reach the end of their cell in a step, rounded down, at this ratio (A, B) of its road's speed.
pub fn arriving(speed: (u32, u32), n: u64) -> u64
    requires { IsSpeed speed }
    ensures { result ≡ arriving speed n }
{
    let (num, den) = speed;
    share_floor(n, u64::from(num), u64::from(den))
}

/// What a cell can send in step `t` where it holds `n` parts: of those that reach its end at the speed of the step.
#[tactic(auto, unfolding(crate::specs::Limits::sending_at))]
pub(crate) fn sending_at(net: &Net, t: u64, cell: u32, n: u64) -> u64
    requires has_cell { cell < length net.now.cells }
    requires in_time { t < net.now.steps }
    ensures { result ≡ sending_at net.now t cell n }
{
    let _steps = net.steps;
    sending(
        arriving(net.plan.speed(cell, t), n),
        net.plan.capacity(cell, t),
        net.plan.green(cell, t),
    )
}

/// What a cell can receive in step `t` where it holds `n` parts.
#[tactic(auto, unfolding(crate::specs::Limits::receiving_at))]
pub(crate) fn receiving_at(net: &Net, t: u64, cell: u32, n: u64) -> u64
    requires has_cell { cell < length net.now.cells }
    requires in_time { t < net.now.steps }
    requires held { IsHeldInBounds net.now t cell n }
    ensures { result ≡ receiving_at net.now t cell n }
{
    let room = room_of(net.cells[cell as usize].kind);
    receiving(n, net.plan.capacity(cell, t), room)
}
