ghost use Rattle.std.specs.Prelude.{◌≡◌, ◌||◌, ℕ, ◌++◌, ◌∷◌, [], IfOk, OnOk, length};
ghost use Rattle.std.specs.List.{list_any};
ghost use Rattle.network_file.specs.Connectors.{diverges_from, leads_into, leads_out_of};
ghost use Rattle.record_fields.specs.Marks.{is_marked};

use crate::connector::Connector;
use no_memory::NoMemory;
use record_fields::Marks;
use std::alloc::Global;
use std::marker::Model;

/// The connectors read so far, in order, with the cells that they lead out of and into.
#[derive(Drop)]
pub(crate) struct ConnectorTable {
    // Behind a pointer, since each record hands the table on.
    parts: Box<ConnectorParts>,
}

#[derive(Drop)]
struct ConnectorParts {
    connectors: Vec<Connector>,
    left: Marks,
    entered: Marks,
    diverging: Marks,
}

impl Model for ConnectorTable {
    ghost use Rattle.std.specs.Prelude.{List};
    ghost use Rattle.network_file.specs.declared.connector.Connector.{Connector};

    ghost Value = { List Connector };

    ghost use Rattle.std.specs.Prelude.{◌≡◌, ℕ};
    ghost use Rattle.std.specs.List.{list_any};
    ghost use Rattle.network_file.specs.Connectors.{diverges_from, leads_into, leads_out_of};
    ghost use Rattle.record_fields.specs.Marks.{is_marked};

    ghost view = { λ a. a.parts.value.connectors.items };

    ghost invariant = { λ a. ((i : ℕ) → is_marked a.parts.value.left i ≡ list_any (leads_out_of i) a.parts.value.connectors.items) × ((i : ℕ) → is_marked a.parts.value.entered i ≡ list_any (leads_into i) a.parts.value.connectors.items) × ((i : ℕ) → is_marked a.parts.value.diverging i ≡ list_any (diverges_from i) a.parts.value.connectors.items) };
}

impl ConnectorTable {
    pub(crate) fn new(alloc: Global) -> Result<ConnectorTable, NoMemory>
        ensures { IfOk result (λ connectors. connectors ≡ []) }
    {
        let parts = ConnectorParts {
            connectors: Vec::new(alloc),
            left: Marks::new(alloc),
            entered: Marks::new(alloc),
            diverging: Marks::new(alloc),
        };
        Ok(ConnectorTable {
            parts: Box::new(alloc, parts)?,
        })
    }

    pub(crate) fn len(&self) -> usize
        ensures { result ≡ length self.now }
    {
        self.parts.connectors.len()
    }

    pub(crate) fn leads_out_of(&self, cell: u32) -> bool
        ensures { result ≡ list_any (leads_out_of cell) self.now }
    {
        self.parts.left.has(cell)
    }

    pub(crate) fn leads_into(&self, cell: u32) -> bool
        ensures { result ≡ list_any (leads_into cell) self.now }
    {
        self.parts.entered.has(cell)
    }

    /// Whether a diverge leads out of the cell.
    pub(crate) fn diverges_from(&self, cell: u32) -> bool
        ensures { result ≡ list_any (diverges_from cell) self.now }
    {
        self.parts.diverging.has(cell)
    }

    /// With one more connector.
    pub(crate) fn with(self, connector: Connector) -> Result<ConnectorTable, NoMemory>
        ensures { IfOk result (λ more. more ≡ self ++ connector ∷ []) }
    {
        let ConnectorTable { mut parts } = self;
        let ConnectorParts {
            connectors,
            left,
            entered,
            diverging,
        } = &mut *parts;
        mark_upstream(left, connector)?;
        mark_downstream(entered, connector)?;
        mark_diverging(diverging, connector)?;
        connectors.push(connector)?;
        Ok(ConnectorTable { parts })
    }

    pub(crate) fn into_connectors(self) -> Vec<Connector>
        ensures { result.items ≡ self }
    {
        let ConnectorParts { connectors, .. } = Box::into_inner(self.parts);
        connectors
    }
}

/// Marks each cell upstream of a connector.
fn mark_upstream(marks: &mut Marks, connector: Connector) -> Result<(), NoMemory>
    ensures { OnOk result ((i : ℕ) → is_marked marks.new i ≡ (leads_out_of i connector || is_marked marks.old i)) }
{
    match connector {
        Connector::Link { up, .. } | Connector::Diverge { up, .. } => marks.mark(up),
        Connector::Merge { up1, up2, .. } => {
            marks.mark(up1)?;
            marks.mark(up2)
        }
    }
}

/// Marks each cell downstream of a connector.
fn mark_downstream(marks: &mut Marks, connector: Connector) -> Result<(), NoMemory>
    ensures { OnOk result ((i : ℕ) → is_marked marks.new i ≡ (leads_into i connector || is_marked marks.old i)) }
{
    match connector {
        Connector::Link { down, .. } | Connector::Merge { down, .. } => marks.mark(down),
        Connector::Diverge { down1, down2, .. } => {
            marks.mark(down1)?;
            marks.mark(down2)
        }
    }
}

/// Marks the cell out of which a diverge leads.
fn mark_diverging(marks: &mut Marks, connector: Connector) -> Result<(), NoMemory>
    ensures { OnOk result ((i : ℕ) → is_marked marks.new i ≡ (diverges_from i connector || is_marked marks.old i)) }
{
    match connector {
        Connector::Link { .. } | Connector::Merge { .. } => Ok(()),
        Connector::Diverge { up, .. } => marks.mark(up),
    }
}
