ghost use Rattle.std.specs.Prelude.{◌≡◌, ℕ, ◌+◌, ◌++◌, codes, length, OnOk};
ghost use Rattle.net_make.specs.Draws.{state_after};
ghost use Rattle.net_make.specs.Made.{on_ramps, signal_line, signal_lines, signals, text_of};

use crate::draws::Draws;
use crate::features::has_signal;
use crate::numbers::put_number;
use no_memory::NoMemory;

/// Appends the signals, by the draws behind those of the demands.
pub(crate) fn put_signals(text: &mut Vec<u8>, size: u32, draws: &mut Draws) -> Result<(), NoMemory>
    ensures text { OnOk result ((seed : ℕ) → draws.old.state ≡ state_after seed (1 + length (on_ramps size)) →
        text.new.items ≡ text.old.items ++ text_of (signal_lines size seed)) }
    ensures draws { OnOk result ((seed : ℕ) → draws.old.state ≡ state_after seed (1 + length (on_ramps size)) →
        draws.new.state ≡ state_after seed (1 + length (on_ramps size) + length (signals size))) }
{
    for i in 0..size {
        if has_signal(i) {
            put_signal(text, draws.draw(), i)?;
        }
    }
    Ok(())
}

#[tactic(auto, unfolding(crate::specs::Made::signal_line))]
fn put_signal(text: &mut Vec<u8>, drawn: u32, i: u32) -> Result<(), NoMemory>
    ensures { OnOk result (text.new.items ≡ text.old.items ++ signal_line drawn i ++ codes "\n") }
{
    put_number(text, b"signal,m", i)?;
    put_number(text, b",6,", drawn % 6)?;
    text.extend_from_slice(b",0,4\n")?;
    Ok(())
}
