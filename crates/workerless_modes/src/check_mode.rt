ghost use Rattle.std.specs.Prelude.{◌≡◌, ◌≤◌, ◌++◌, ◌==◌, [], codes, if◌then◌else◌, length, nat_le, IfErr, IfOk, None, OnOk};
ghost use Rattle.step_plan.specs.Counts.{counts_of};
ghost use Rattle.network_file.specs.declared.limits.TheConstants.{MOST_BYTES};
ghost use Rattle.line_fields.specs.Fields.{count_field};
ghost use Rattle.call_ending.specs.Refusing.{IsRefusalOf};
ghost use Rattle.workerless_modes.specs.CheckMode.{IsCheckText, check_refused, counts_line};

use call_beginning::network_in;
use call_ending::Refusal;
use line_fields::put_count;
use network_file::Net;
use no_memory::NoMemory;
use std::alloc::Global;

/// The counts of a network.
pub fn check_text(alloc: Global, input: &[u8]) -> Result<Vec<u8>, Refusal>
    requires few_bytes { length input.now ≤ MOST_BYTES }
    ensures text { IfOk result (λ text. (check_refused input.now ≡ None) × IsCheckText input.now text.items) }
    ensures refusal { IfErr result (IsRefusalOf (check_refused input.now) ⊥) }
{
    match network_in(alloc, input) {
        Ok(net) => Ok(counts(alloc, &net)?),
        Err(refusal) => Err(refusal),
    }
}

// The line of a network's counts (docs/FORMAT.md, "The counts").
#[tactic(auto, unfolding(crate::specs::CheckMode::counts_line))]
fn counts(alloc: Global, net: &Net) -> Result<Vec<u8>, NoMemory>
    ensures { IfOk result (λ text. text.items ≡ counts_line net.now) }
{
    let planned = net.plan.counts();
    let mut text = Vec::new(alloc);
    put_name(&mut text, net)?;
    put_count(&mut text, net.cells.len() as u64)?;
    put_count(&mut text, net.connectors.len() as u64)?;
    put_count(&mut text, net.steps)?;
    put_count(&mut text, planned.signals as u64)?;
    put_count(&mut text, planned.limits as u64)?;
    put_count(&mut text, planned.demands as u64)?;
    put_turns(&mut text, net)?;
    put_speeds(&mut text, net)?;
    text.extend_from_slice(b"\n")?;
    Ok(text)
}

// The first word of the line, by the format.
fn put_name(text: &mut Vec<u8>, net: &Net) -> Result<(), NoMemory>
    ensures { OnOk result (text.new.items ≡ text.old.items ++ (if net.now.format == 1 then codes "network" else if net.now.format == 2 then codes "network2" else codes "network3")) }
{
    if net.format == 1 {
        text.extend_from_slice(b"network")?;
    } else if net.format == 2 {
        text.extend_from_slice(b"network2")?;
    } else {
        text.extend_from_slice(b"network3")?;
    }
    Ok(())
}

// The number of turns, which format 1 hasn't.
fn put_turns(text: &mut Vec<u8>, net: &Net) -> Result<(), NoMemory>
    ensures { OnOk result (text.new.items ≡ text.old.items ++ (if nat_le 2 net.now.format then count_field (counts_of net.now.plan).turns else [])) }
{
    if net.format >= 2 {
        put_count(text, net.plan.counts().turns as u64)?;
    }
    Ok(())
}

// The number of speeds, which format 3 has.
fn put_speeds(text: &mut Vec<u8>, net: &Net) -> Result<(), NoMemory>
    ensures { OnOk result (text.new.items ≡ text.old.items ++ (if nat_le 3 net.now.format then count_field (counts_of net.now.plan).speeds else [])) }
{
    if net.format >= 3 {
        put_count(text, net.plan.counts().speeds as u64)?;
    }
    Ok(())
}
