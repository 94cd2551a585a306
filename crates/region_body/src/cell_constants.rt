ghost use Rattle.std.specs.Prelude.{◌≡◌};
ghost use Rattle.region_body.specs.Rows.{IsSettled, row_of};

use cell_sweep::CellState;
use flow_model::Row;

/// What never changes of a cell, and makes its row of its state.
#[derive(Clone, Copy)]
pub(crate) struct CellConstants {
    /// What it holds at step 0.
    pub(crate) first: u64,
    /// Whether it is an exit.
    pub(crate) is_exit: bool,
}

impl CellConstants {
    /// The row of the cell in this state.
    pub(crate) fn row(self, state: &CellState) -> Row
        requires { IsSettled self state.now }
        ensures { result ≡ row_of self state.now }
    {
        let (n, gone) = (state.n, state.gone);
        if self.is_exit {
            return Row {
                n,
                come: n,
                gone,
                wait: 0,
            };
        }
        Row {
            n,
            come: n + gone - self.first,
            gone,
            wait: state.held - gone,
        }
    }
}
