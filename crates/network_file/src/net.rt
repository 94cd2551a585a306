ghost use Rattle.std.specs.Prelude.{◌≡◌, ◌≤◌, Ok, IfErr, IfOk, length};
ghost use Rattle.network_file.specs.Reading.{network_of};
ghost use Rattle.no_memory.specs.Answers.{IsRefusal};

use crate::cell::Cell;
use crate::connector::Connector;
use crate::fault::NetFault;
use crate::limits::MOST_BYTES;
use crate::reading::read_file;
use no_memory::Refused;
use std::alloc::Global;
use std::marker::Model;
use step_plan::Plan;

/// A road network with its plan. Its type keeps the rules of the model and the limits of the format
/// (docs/MODEL.md, docs/FORMAT.md).
#[derive(Drop)]
pub struct Net {
    /// The format of its file, 1 to 3.
    pub format: u32,
    /// How many steps it is taken through.
    pub steps: u64,
    /// Its cells, in the order of their records.
    pub cells: Vec<Cell>,
    /// Its connectors, in the order of their records.
    pub connectors: Vec<Connector>,
    /// The capacity of each cell, its limits and its signal, the demand of each gate, the turning shares and speeds of steps.
    pub plan: Plan,
    /// The number of each cell's region, from 0, where the file gives them, and else nothing.
    pub regions: Vec<u32>,
}

impl Model for Net {
    ghost use Rattle.network_file.specs.Network.{Network};

    ghost Value = { Network };

    ghost use Rattle.network_file.specs.Sound.{IsNetwork};
    ghost use Rattle.network_file.specs.NetView.{network_in};

    ghost view = { network_in };

    ghost invariant = { λ net. IsNetwork (network_in net) };
}

impl Net {
    /// Reads the network of a file (docs/FORMAT.md).
    pub fn read(alloc: Global, bytes: &[u8]) -> Result<Net, Refused<NetFault>>
        requires { length bytes.now ≤ MOST_BYTES }
        ensures network { IfOk result (λ net. network_of bytes.now ≡ Ok net) }
        ensures refusal { IfErr result (λ refusal. IsRefusal refusal (network_of bytes.now)) }
    {
        read_file(alloc, bytes)
    }
}
