ghost use Rattle.std.specs.Prelude.{◌≡◌, ◌+◌, ◌<◌, ◌≤◌, ◌^◌, length};
ghost use Rattle.flow_model.specs.Bounds.{IsRowInBounds};
ghost use Rattle.flow_model.specs.Moves.{begun_row, row_less, row_more};

use network_file::{Kind, Net};

/// What is known of a cell at a step, in parts (docs/MODEL.md).
#[derive(Clone, Copy, Debug, PartialEq, Eq)]
pub struct Row {
    /// What the cell holds.
    pub n: u64,
    /// All that came in since step 0.
    pub come: u64,
    /// All that went out since step 0.
    pub gone: u64,
    /// The sum, over the steps since step 0, of what did not leave: parts times steps.
    pub wait: u64,
}

impl Row {
    /// The row of a cell as step `t` begins, before any connector carries its flow: the demand of a gate is in, and
    /// all that the cell holds is counted as waiting.
    pub(crate) fn begun(self, net: &Net, t: u64, cell: u32) -> Row
        requires has_cell { cell < length net.now.cells }
        requires in_time { t < net.now.steps }
        requires in_bounds { IsRowInBounds net.now t cell self }
        ensures { result ≡ begun_row net.now t cell self }
    {
        let kind = net.cells[cell as usize].kind;
        let waiting = Row {
            wait: self.wait + self.n,
            ..self
        };
        match kind {
            Kind::Road { .. } => waiting,
            Kind::Gate => {
                let demand = net.plan.demand(cell, t);
                Row {
                    n: self.n + demand,
                    come: self.come + demand,
                    ..waiting
                }
            }
            Kind::Exit => self,
        }
    }

    /// So many parts leave in this step. They were counted as waiting, and don't wait.
    pub(crate) fn leave(&mut self, parts: u64)
        requires held { parts ≤ self.old.n }
        requires waiting { parts ≤ self.old.wait }
        requires fits { self.old.gone + parts < 2 ^ 64 }
        ensures { self.new ≡ row_less self.old parts }
    {
        self.n -= parts;
        self.gone += parts;
        self.wait -= parts;
    }

    /// So many parts enter in this step.
    pub(crate) fn enter(&mut self, parts: u64)
        requires fits { self.old.n + parts < 2 ^ 64 }
        requires all_fit { self.old.come + parts < 2 ^ 64 }
        ensures { self.new ≡ row_more self.old parts }
    {
        self.n += parts;
        self.come += parts;
    }
}
