ghost use Rattle.std.specs.Prelude.{◌≡◌, ◌<◌, length};
ghost use Rattle.flow_model.specs.Rows.{moved_row};
ghost use Rattle.plain_region.specs.Carrying.{CanChange, enters_in_all};

use flow_model::Row;
use network_file::{Kind, Net};

/// What connectors bring to a cell in a step, and what they take from it, in parts.
#[derive(Clone, Copy, Debug)]
pub(crate) struct Change {
    pub(crate) enters: u64,
    pub(crate) leaves: u64,
}

impl Change {
    /// Nothing enters or leaves.
    pub(crate) const NONE: Change = Change {
        enters: 0,
        leaves: 0,
    };

    /// The row of a cell after step `t`. A gate has its demand come in, and what stays in an exit doesn't wait.
    pub(crate) fn of_row(self, net: &Net, t: u64, cell: u32, row: &Row) -> Row
        requires there { cell < length net.now.cells }
        requires in_time { t < net.now.steps }
        requires can { CanChange row.now (enters_in_all net.now t cell self) self.leaves }
        ensures { result ≡ moved_row net.now cell row.now (enters_in_all net.now t cell self) self.leaves }
    {
        let kind = net.cells[cell as usize].kind;
        let enters = match kind {
            Kind::Gate => net.plan.demand(cell, t),
            Kind::Road { .. } | Kind::Exit => self.enters,
        };
        let waits = match kind {
            Kind::Exit => 0,
            Kind::Road { .. } | Kind::Gate => row.n - self.leaves,
        };
        Row {
            n: row.n + enters - self.leaves,
            come: row.come + enters,
            gone: row.gone + self.leaves,
            wait: row.wait + waits,
        }
    }
}
