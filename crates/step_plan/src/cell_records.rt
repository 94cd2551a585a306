ghost use Rattle.std.specs.Prelude.{◌≡◌, ◌++◌, ◌∷◌, [], OnOk, OnErr};
ghost use Rattle.step_plan.specs.Adding.{with_own};
ghost use Rattle.step_plan.specs.Records as cell;

use crate::cell_record::CellRecord;
use crate::demand::Demand;
use crate::limit::Limit;
use crate::signal::Signal;
use crate::speed::Speed;
use crate::turn::Turn;
use no_memory::NoMemory;
use std::alloc::Global;
use std::marker::Model;

/// The records of one cell, in the order of the file.
#[derive(Debug, Drop)]
pub(crate) struct CellRecords {
    pub(crate) signal: Option<Signal>,
    pub(crate) limits: Vec<Limit>,
    pub(crate) demands: Vec<Demand>,
    pub(crate) turns: Vec<Turn>,
    pub(crate) speeds: Vec<Speed>,
}

impl Model for CellRecords {
    ghost use Rattle.step_plan.specs.Records as cell;

    ghost Value = { cell.CellRecords };

    ghost view = { λ own. record {
      signal = own.signal;
      limits = own.limits.items;
      demands = own.demands.items;
      turns = own.turns.items;
      speeds = own.speeds.items;
    } };
}

impl CellRecords {
    /// No records. It takes no memory.
    pub(crate) fn new(alloc: Global) -> Self
        ensures { result ≡ cell.bare }
    {
        CellRecords {
            signal: None,
            limits: Vec::new(alloc),
            demands: Vec::new(alloc),
            turns: Vec::new(alloc),
            speeds: Vec::new(alloc),
        }
    }

    /// Adds a record.
    pub(crate) fn put(&mut self, one: CellRecord) -> Result<(), NoMemory>
        ensures added { OnOk result (self.new ≡ with_own self.old one) }
        ensures unchanged { OnErr result (self.new ≡ self.old) }
    {
        match one {
            CellRecord::Signal(signal) => {
                self.signal = Some(signal);
                Ok(())
            }
            CellRecord::Limit(limit) => push(&mut self.limits, limit),
            CellRecord::Demand(demand) => push(&mut self.demands, demand),
            CellRecord::Turn(turn) => push(&mut self.turns, turn),
            CellRecord::Speed(speed) => push(&mut self.speeds, speed),
        }
    }
}

// Puts one more record at the end. Most cells have one of a kind, so the first takes no more room than it needs.
fn push<R: Copy>(records: &mut Vec<R>, one: R) -> Result<(), NoMemory>
    ensures added { OnOk result (records.new.items ≡ records.old.items ++ one ∷ []) }
    ensures unchanged { OnErr result (records.new.items ≡ records.old.items) }
{
    if records.is_empty() {
        records.reserve_exact(1)?;
    }
    records.push(one)?;
    Ok(())
}
