ghost use Rattle.std.specs.Prelude.{◌≡◌, ◌≤◌, ◌+◌, ◌*◌, ◌++◌, IfOk, OnOk, codes, decimal};
ghost use Rattle.net_make.specs.Made.{head, made, text_of};

use crate::cells::put_cells;
use crate::connectors::put_connectors;
use crate::demands::put_demands;
use crate::draws::Draws;
use crate::incident::put_incident;
use crate::signals::put_signals;
use itoa::Buffer;
use no_memory::NoMemory;
use std::alloc::Global;

/// The network file of a corridor of `size` main cells, 1 or more, whose demands, signals and incident are drawn from
/// `seed` (docs/FORMAT.md, "A made network").
#[tactic(auto, unfolding(crate::specs::Made::made))]
pub fn make(alloc: Global, size: u32, seed: u32) -> Result<Vec<u8>, NoMemory>
    requires { 1 ≤ size }
    ensures { IfOk result (λ text. text.items ≡ made size seed) }
{
    let mut text = Vec::new(alloc);
    let mut draws = Draws::new(seed);
    put_head(&mut text, size)?;
    put_cells(&mut text, size)?;
    put_connectors(&mut text, size)?;
    put_demands(&mut text, size, &mut draws)?;
    put_signals(&mut text, size, &mut draws)?;
    put_incident(&mut text, size, &mut draws)?;
    Ok(text)
}

#[tactic(auto, unfolding(crate::specs::Made::head))]
fn put_head(text: &mut Vec<u8>, size: u32) -> Result<(), NoMemory>
    ensures { OnOk result (text.new.items ≡ text.old.items ++ text_of (head size)) }
{
    text.extend_from_slice(b"ctm,1\n")?;
    put_steps(text, size)?;
    text.extend_from_slice(b"gate,g,2,0\n")?;
    Ok(())
}

fn put_steps(text: &mut Vec<u8>, size: u32) -> Result<(), NoMemory>
    ensures { OnOk result (text.new.items ≡ text.old.items ++ codes "steps," ++ decimal (40 + 2 * size) ++ codes "\n") }
{
    let mut digits = Buffer::new();
    text.extend_from_slice(b"steps,")?;
    text.extend_from_slice(digits.format(40 + 2 * u64::from(size)).as_bytes())?;
    text.extend_from_slice(b"\n")?;
    Ok(())
}
