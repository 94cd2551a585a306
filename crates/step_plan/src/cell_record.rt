use crate::demand::Demand;
use crate::limit::Limit;
use crate::signal::Signal;
use crate::speed::Speed;
use crate::turn::Turn;

/// A record of a cell, which speaks of single steps.
#[derive(Clone, Copy, Debug)]
pub enum CellRecord {
    /// When the cell may send, in place of any signal that it had.
    Signal(Signal),
    /// A capacity in some steps.
    Limit(Limit),
    /// What enters in each of some steps.
    Demand(Demand),
    /// Turning shares of the diverge out of the cell in some steps.
    Turn(Turn),
    /// A free-flow speed in some steps.
    Speed(Speed),
}
