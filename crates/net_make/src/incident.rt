ghost use Rattle.std.specs.Prelude.{◌≡◌, ℕ, ◌+◌, ◌≤◌, ◌%◌, ◌++◌, codes, decimal, length, OnOk};
ghost use Rattle.net_make.specs.Draws.{state_after};
ghost use Rattle.net_make.specs.Made.{incident, on_ramps, signals, text_of};

use crate::draws::Draws;
use crate::numbers::put_number;
use no_memory::NoMemory;

/// Appends the incident by the last draw, where there are two main cells or more.
#[tactic(auto, unfolding(crate::specs::Made::incident))]
pub(crate) fn put_incident(text: &mut Vec<u8>, size: u32, draws: &mut Draws) -> Result<(), NoMemory>
    ensures { OnOk result ((seed : ℕ) → draws.old.state ≡ state_after seed (1 + length (on_ramps size) + length (signals size)) →
        text.new.items ≡ text.old.items ++ text_of (incident size seed)) }
{
    if size >= 2 {
        put_limit(text, draws.draw(), size)?;
    }
    Ok(())
}

fn put_limit(text: &mut Vec<u8>, drawn: u32, size: u32) -> Result<(), NoMemory>
    requires { 1 ≤ size }
    ensures { OnOk result (text.new.items ≡ text.old.items ++ codes "limit,m" ++ decimal (drawn % size) ++ codes ",10,20,1\n") }
{
    put_number(text, b"limit,m", drawn % size)?;
    text.extend_from_slice(b",10,20,1\n")?;
    Ok(())
}
