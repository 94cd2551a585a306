ghost use Rattle.std.specs.Prelude.{◌≡◌, ◌<◌, ◌≢◌, None, IfOk, false, length};
ghost use Rattle.std.specs.Option.{ForSome};
ghost use Rattle.std.specs.List.{list_any};
ghost use Rattle.network_file.specs.Cells.{cell_named, is_exit_at, is_gate_at};
ghost use Rattle.network_file.specs.CellFields.{downstream, known_cell, new_name, upstream};
ghost use Rattle.network_file.specs.Connectors.{leads_into, leads_out_of};

use crate::cell_table::CellTable;
use crate::connector_table::ConnectorTable;
use record_fields::{Code, Name};

/// A name that no cell has yet.
#[tactic(auto, unfolding(crate::specs::CellFields::new_name))]
pub(crate) fn new_name(cells: &CellTable, text: &[u8]) -> Result<Name, Code>
    ensures value { result ≡ new_name cells.now text.now }
    ensures fresh { IfOk result (λ name. cell_named cells.now name ≡ None) }
{
    if !Name::is_spelled(text) {
        return Err(Code::BadName);
    }
    if cells.find_in_bucket(text).is_some() {
        return Err(Code::Repeated);
    }
    Ok(Name::new(text))
}

/// The cell of a name.
#[tactic(auto, unfolding(crate::specs::CellFields::known_cell))]
pub(crate) fn known_cell(cells: &CellTable, text: &[u8]) -> Result<u32, Code>
    ensures value { result ≡ known_cell cells.now text.now }
    ensures there { IfOk result (λ cell. cell < length cells.now) }
{
    match cells.find(text) {
        None => Err(Code::Unknown),
        Some(cell) => Ok(cell),
    }
}

/// The cell upstream of a new connector, whose record names `earlier` upstream before it.
#[tactic(auto, unfolding(crate::specs::CellFields::upstream))]
pub(crate) fn upstream(
    cells: &CellTable,
    connectors: &ConnectorTable,
    earlier: Option<u32>,
    text: &[u8],
) -> Result<u32, Code>
    ensures value { result ≡ upstream cells.now connectors.now earlier text.now }
    ensures there { IfOk result (λ cell. cell < length cells.now) }
    ensures sends { IfOk result (λ cell. is_exit_at cells.now cell ≡ false) }
    ensures free { IfOk result (λ cell. list_any (leads_out_of cell) connectors.now ≡ false) }
    ensures apart { IfOk result (λ cell. ForSome earlier (λ other. cell ≢ other)) }
{
    let cell = known_cell(cells, text)?;
    if cells.is_exit(cell) {
        Err(Code::WrongKind)
    } else if connectors.leads_out_of(cell) || earlier == Some(cell) {
        Err(Code::OutTaken)
    } else {
        Ok(cell)
    }
}

/// The cell downstream of a new connector, whose record names `earlier` downstream before it.
#[tactic(auto, unfolding(crate::specs::CellFields::downstream))]
pub(crate) fn downstream(
    cells: &CellTable,
    connectors: &ConnectorTable,
    earlier: Option<u32>,
    text: &[u8],
) -> Result<u32, Code>
    ensures value { result ≡ downstream cells.now connectors.now earlier text.now }
    ensures there { IfOk result (λ cell. cell < length cells.now) }
    ensures receives { IfOk result (λ cell. is_gate_at cells.now cell ≡ false) }
    ensures free { IfOk result (λ cell. list_any (leads_into cell) connectors.now ≡ false) }
    ensures apart { IfOk result (λ cell. ForSome earlier (λ other. cell ≢ other)) }
{
    let cell = known_cell(cells, text)?;
    if cells.is_gate(cell) {
        Err(Code::WrongKind)
    } else if connectors.leads_into(cell) || earlier == Some(cell) {
        Err(Code::InTaken)
    } else {
        Ok(cell)
    }
}
