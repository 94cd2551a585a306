ghost use Rattle.std.specs.Prelude.{◌≡◌, ◌<◌, ◌≤◌, ◌*◌, ◌^◌, sum_by, ◌++◌, ◌∷◌, [], None, Some, IfOk, IfSome, length, true};
ghost use Rattle.network_file.specs.Cells.{cell_named, is_exit_at, is_gate_at, is_road_at, name_at};
ghost use Rattle.network_file.specs.declared.limits.TheConstants.{MOST_BYTES};
ghost use Rattle.step_plan.specs.declared.bounds.TheConstants.{MOST_RECORDS};

use crate::cell::{Cell, Kind};
use crate::limits::MOST_BYTES;
use crate::name_index::NameIndex;
use no_memory::NoMemory;
use std::alloc::Global;
use std::marker::Model;
use step_plan::MOST_RECORDS;

/// The cells read so far, in order, with an index of their names.
#[derive(Drop)]
pub(crate) struct CellTable {
    // Behind a pointer, since each record hands the table on.
    parts: Box<CellParts>,
    /// Where a name is looked for first: most records name the cell of the record before, or the one behind it.
    near: u32,
}

#[derive(Drop)]
struct CellParts {
    cells: Vec<Cell>,
    index: NameIndex,
}

impl Model for CellTable {
    ghost use Rattle.std.specs.Prelude.{List};
    ghost use Rattle.network_file.specs.declared.cell.Cell.{Cell};

    ghost Value = { List Cell };

    ghost use Rattle.network_file.specs.NameIndexing.{IsIndexOf};

    ghost view = { λ a. a.parts.value.cells.items };

    ghost invariant = { λ a. IsIndexOf a.parts.value.index a.parts.value.cells.items };
}

impl CellTable {
    /// Without cells, for those of a file.
    pub(crate) fn of_file(alloc: Global, bytes: &[u8]) -> Result<CellTable, NoMemory>
        requires { length bytes.now ≤ MOST_BYTES }
        ensures { IfOk result (λ cells. cells ≡ []) }
    {
        let parts = CellParts {
            cells: Vec::new(alloc),
            index: NameIndex::of_file(alloc, bytes)?,
        };
        Ok(CellTable {
            parts: Box::new(alloc, parts)?,
            near: 0,
        })
    }

    pub(crate) fn len(&self) -> usize
        ensures { result ≡ length self.now }
    {
        self.parts.cells.len()
    }

    /// The number of the cell of this name.
    pub(crate) fn find(&self, name: &[u8]) -> Option<u32>
        ensures value { result ≡ cell_named self.now name.now }
        ensures there { IfSome result (λ cell. cell < length self.now) }
    {
        match self.find_near(name) {
            Some(cell) => Some(cell),
            None => self.find_in_bucket(name),
        }
    }

    /// The same, where the name isn't expected to be that of a cell nearby.
    pub(crate) fn find_in_bucket(&self, name: &[u8]) -> Option<u32>
        ensures { result ≡ cell_named self.now name.now }
    {
        self.parts.index.find(&self.parts.cells, name)
    }

    // The number of the cell of this name, where it is the near one or the one behind it.
    fn find_near(&self, name: &[u8]) -> Option<u32>
        ensures { IfSome result (λ cell. cell_named self.now name.now ≡ Some cell) }
    {
        let next = self.near.saturating_add(1);
        if has_name(&self.parts.cells, self.near, name) {
            Some(self.near)
        } else if has_name(&self.parts.cells, next, name) {
            Some(next)
        } else {
            None
        }
    }

    /// The same cells, with the names of the next records looked for at this one first.
    pub(crate) fn near(self, cell: u32) -> CellTable
        ensures { result ≡ self }
    {
        CellTable {
            parts: self.parts,
            near: cell,
        }
    }

    pub(crate) fn is_road(&self, cell: u32) -> bool
        ensures { result ≡ is_road_at self.now cell }
    {
        match self.parts.cells.get(cell as usize) {
            Some(cell) => matches!(cell.kind, Kind::Road { .. }),
            None => false,
        }
    }

    pub(crate) fn is_gate(&self, cell: u32) -> bool
        ensures { result ≡ is_gate_at self.now cell }
    {
        match self.parts.cells.get(cell as usize) {
            Some(cell) => matches!(cell.kind, Kind::Gate),
            None => false,
        }
    }

    pub(crate) fn is_exit(&self, cell: u32) -> bool
        ensures { result ≡ is_exit_at self.now cell }
    {
        match self.parts.cells.get(cell as usize) {
            Some(cell) => matches!(cell.kind, Kind::Exit),
            None => false,
        }
    }

    /// The sum of the first occupancies, in parts.
    pub(crate) fn first_total(&self) -> u128
        ensures total { result ≡ sum_by (λ cell. cell.first) self.now }
        ensures bound { result ≤ MOST_RECORDS * 2 ^ 64 }
    {
        let mut total = 0;
        for cell in &self.parts.cells {
            total += u128::from(cell.first);
        }
        total
    }

    /// With one more cell of the file, whose name no cell has yet.
    pub(crate) fn with(self, cell: Cell, bytes: &[u8]) -> Result<CellTable, NoMemory>
        requires room { length self < MOST_RECORDS }
        requires fresh { cell_named self cell.name ≡ None }
        ensures { IfOk result (λ more. more ≡ self ++ cell ∷ []) }
    {
        let CellTable { mut parts, near } = self;
        let CellParts { cells, index } = &mut *parts;
        index.add(cells, &cell)?;
        cells.push(cell)?;
        index.spread(cells, bytes)?;
        Ok(CellTable { parts, near })
    }

    pub(crate) fn into_cells(self) -> Vec<Cell>
        ensures { result.items ≡ self }
    {
        let CellParts { cells, .. } = Box::into_inner(self.parts);
        cells
    }
}

// Whether there is a cell of this number, with this name.
fn has_name(cells: &[Cell], cell: u32, name: &[u8]) -> bool
    ensures there { result ≡ true → cell < length cells.now }
    ensures named { result ≡ true → name_at cells.now cell ≡ name.now }
{
    match cells.get(cell as usize) {
        Some(cell) => is_named(cell, name),
        None => false,
    }
}

// Whether a cell has this name. Names of neighbouring cells mostly differ in the last byte, so that is looked at first.
fn is_named(cell: &Cell, name: &[u8]) -> bool
    ensures { result ≡ true → cell.now.name ≡ name.now }
{
    let own = cell.name.bytes();
    own.last() == name.last() && own == name
}
