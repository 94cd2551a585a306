ghost use Rattle.std.specs.Prelude.{◌≡◌, ◌<◌, ◌≤◌, ◌^◌, All, IfOk, length, map};
ghost use Rattle.plan_choice.specs.Choice.{IsChoice, whole_delay};

use crate::delays::delays;
use network_file::Net;
use no_memory::NoMemory;
use std::alloc::Global;
use std::thread::Threads;

/// The choice among networks.
#[derive(Drop)]
pub struct Choice {
    /// The number of the network that is chosen, from 0.
    pub plan: u32,
    /// The delay of each network, in parts times steps.
    pub delays: Vec<u128>,
}

/// The delays of 1 to 16 networks, and the first network with the least delay. All networks are run at once where the
/// threads can be made. No sum of delays overflows: a network has at most 200,000 cells, and the wait of each fits in 64
/// bits.
pub fn choose<R: Threads + Sync>(rt: &R, alloc: Global, nets: &[Net]) -> Result<Choice, NoMemory>
    requires some { 1 ≤ length nets.now }
    requires few { length nets.now ≤ 16 }
    ensures delays { IfOk result (λ choice. choice.delays.items ≡ map whole_delay nets.now) }
    ensures plan { IfOk result (λ choice. IsChoice choice.delays.items choice.plan) }
    ensures few { IfOk result (λ choice. All (λ delay. delay < 2 ^ 96) choice.delays.items) }
{
    let delays = delays(rt, alloc, nets)?;
    let plan = first_of_least(&delays);
    Ok(Choice { plan, delays })
}

// The place of the first of the least delays.
fn first_of_least(delays: &[u128]) -> u32
    requires some { 1 ≤ length delays.now }
    requires few { length delays.now ≤ 16 }
    ensures { IsChoice delays.now result }
{
    let mut plan = 0;
    for p in 1..delays.len() {
        if delays[p] < delays[plan] {
            plan = p;
        }
    }
    plan as u32
}
