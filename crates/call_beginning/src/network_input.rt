ghost use Rattle.std.specs.Prelude.{◌≡◌, ◌≤◌, ◌++◌, IfErr, IfOk, Ok, OnOk, Option, codes, length};
ghost use Rattle.network_file.specs.Network.{Network};
ghost use Rattle.network_file.specs.Reading.{network_of};
ghost use Rattle.network_file.specs.declared.limits.TheConstants.{MOST_BYTES};
ghost use Rattle.call_ending.specs.Refusing.{IsRefusalOf};
ghost use Rattle.call_ending.specs.Why.{Why};
ghost use Rattle.call_beginning.specs.NetworkInput.{fault_told, network_refused, why_of_network};
ghost use Rattle.call_beginning.specs.Refused.{IsToldOf};

use call_ending::{Cause, Line, Refusal};
use itoa::Buffer;
use network_file::{Net, NetFault};
use no_memory::{NoMemory, Refused};
use std::alloc::Global;

/// The network that an input is, or the refusal of a file by its first fault.
pub fn network_in(alloc: Global, input: &[u8]) -> Result<Net, Refusal>
    requires few_bytes { length input.now ≤ MOST_BYTES }
    ensures network { IfOk result (λ net. network_of input.now ≡ Ok net) }
    ensures refusal { IfErr result (λ refusal. (why : Network → Option Why) → IsRefusalOf (why_of_network (network_of input.now) why) ⊥ refusal) }
{
    match Net::read(alloc, input) {
        Ok(net) => Ok(net),
        Err(refusal) => Err(refused(alloc, refusal)),
    }
}

/// The refusal of a file, with the line that tells its fault.
pub fn refused(alloc: Global, refusal: Refused<NetFault>) -> Refusal
    ensures { IsToldOf network_refused refusal result }
{
    match refusal {
        Refused::Fault(fault) => match fault_line(alloc, fault) {
            Ok(line) => Refusal::Told(Cause::Network, Line::Made(line)),
            Err(NoMemory) => Refusal::NoMemory,
        },
        Refused::NoMemory => Refusal::NoMemory,
    }
}

// The line that tells a network's fault.
fn fault_line(alloc: Global, fault: NetFault) -> Result<Vec<u8>, NoMemory>
    ensures { IfOk result (λ line. line.items ≡ codes "ctm: network: " ++ fault_told fault) }
{
    let mut line = Vec::new(alloc);
    line.extend_from_slice(b"ctm: network: ")?;
    put_fault(&mut line, fault)?;
    Ok(line)
}

/// Appends where a network's fault stands and what it is.
#[tactic(auto, unfolding(crate::specs::NetworkInput::fault_told))]
pub fn put_fault(line: &mut Vec<u8>, fault: NetFault) -> Result<(), NoMemory>
    ensures { OnOk result (line.new.items ≡ line.old.items ++ fault_told fault) }
{
    let mut digits = Buffer::new();
    line.extend_from_slice(b"record ")?;
    line.extend_from_slice(digits.format(fault.place).as_bytes())?;
    line.extend_from_slice(b" code ")?;
    line.extend_from_slice(digits.format(fault.code.number()).as_bytes())?;
    line.extend_from_slice(b" ")?;
    line.extend_from_slice(fault.code.name().as_bytes())?;
    line.extend_from_slice(b"\n")?;
    Ok(())
}
