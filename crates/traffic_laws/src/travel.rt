ghost use Rattle.std.specs.Prelude.{◌≡◌};
ghost use Rattle.traffic_laws.specs.Times.{KeepsOrder, TakesAStep, enters_at, leaves_at};
ghost use Rattle.traffic_laws.specs.Waits.{steps_waited};

/// When a part passes a cell.
#[derive(Clone, Copy, Debug, PartialEq, Eq)]
pub struct Travel {
    /// The first step by which it has come, where the curve has it.
    pub enters: Option<usize>,
    /// The first step by which it has gone, where the curve has it.
    pub leaves: Option<usize>,
}

impl Travel {
    /// For how many steps the part has waited by step `last` of the curves: one that has gone for all that it took but one,
    /// and one that is still there for each since it came.
    ///
    /// By the curves of a cell of a network they add up to [`wait_area`], over all parts that have come by their last step.
    ///
    /// [`wait_area`]: crate::wait_area
    pub fn steps_waited(self, last: usize) -> usize
        ensures { result ≡ steps_waited last self.enters self.leaves }
    {
        match (self.enters, self.leaves) {
            (Some(came), Some(went)) => went.saturating_sub(came).saturating_sub(1),
            (Some(came), None) => last.saturating_sub(came),
            (None, _) => 0,
        }
    }
}

/// When part `k` passes a cell, by its curves. Parts are numbered from 0 in the order in which they come, those first that
/// the cell held at step 0, of which there are `first`. The curves have all that has come and gone by the steps 0, 1 and
/// so on.
pub fn travel_steps(first: u64, come: &[u64], gone: &[u64], k: u64) -> Travel
    ensures enters { result.enters ≡ enters_at first come.now k }
    ensures leaves { result.leaves ≡ leaves_at gone.now k }

    // By the curves of a cell of a network it takes one step at least. That no part overtakes another holds by any curves:
    // parts are numbered so.
    ensures takes_a_step { TakesAStep first come.now gone.now result }
    ensures keeps_order { KeepsOrder first come.now gone.now k result }
{
    Travel {
        enters: come_past(first, come, k),
        leaves: gone_past(gone, k),
    }
}

// The first step by which more than `k` parts have come, with those that were there at first.
fn come_past(first: u64, come: &[u64], k: u64) -> Option<usize>
    ensures { result ≡ enters_at first come.now k }
{
    come.iter().position(|come| u128::from(first) + u128::from(*come) > u128::from(k))
}

// The first step by which more than `k` parts have gone.
fn gone_past(gone: &[u64], k: u64) -> Option<usize>
    ensures { result ≡ leaves_at gone.now k }
{
    gone.iter().position(|gone| *gone > k)
}
