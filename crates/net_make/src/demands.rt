ghost use Rattle.std.specs.Prelude.{◌≡◌, ℕ, ◌+◌, ◌%◌, ◌++◌, OnOk, codes, length};
ghost use Rattle.fixed_flow.specs.Printed.{amount_text};
ghost use Rattle.net_make.specs.Draws.{state_after};
ghost use Rattle.net_make.specs.Made.{demands, on_ramps, ramp_demand, text_of};

use crate::draws::Draws;
use crate::features::has_on_ramp;
use crate::numbers::{put_amount, put_number};
use no_memory::NoMemory;

/// Appends the demands of the gates, by the first draws.
pub(crate) fn put_demands(text: &mut Vec<u8>, size: u32, draws: &mut Draws) -> Result<(), NoMemory>
    ensures text { OnOk result ((seed : ℕ) → draws.old.state ≡ state_after seed 0 → text.new.items ≡ text.old.items ++ text_of (demands size seed)) }
    ensures draws { OnOk result ((seed : ℕ) → draws.old.state ≡ state_after seed 0 → draws.new.state ≡ state_after seed (1 + length (on_ramps size))) }
{
    put_main_demand(text, draws.draw())?;
    for i in 0..size {
        if has_on_ramp(i) {
            put_ramp_demand(text, draws.draw(), i)?;
        }
    }
    Ok(())
}

fn put_main_demand(text: &mut Vec<u8>, drawn: u32) -> Result<(), NoMemory>
    ensures { OnOk result (text.new.items ≡ text.old.items ++ codes "demand,g,0,20," ++ amount_text (1_000_000 + drawn % 2_000_001) ++ codes "\n") }
{
    text.extend_from_slice(b"demand,g,0,20,")?;
    put_amount(text, 1_000_000 + drawn % 2_000_001)?;
    text.extend_from_slice(b"\n")?;
    Ok(())
}

#[tactic(auto, unfolding(crate::specs::Made::ramp_demand))]
fn put_ramp_demand(text: &mut Vec<u8>, drawn: u32, i: u32) -> Result<(), NoMemory>
    ensures { OnOk result (text.new.items ≡ text.old.items ++ ramp_demand drawn i ++ codes "\n") }
{
    put_number(text, b"demand,r", i)?;
    text.extend_from_slice(b",0,20,")?;
    put_amount(text, 100_000 + drawn % 400_001)?;
    text.extend_from_slice(b"\n")?;
    Ok(())
}
