ghost use Rattle.std.specs.Prelude.{◌≡◌, length};
ghost use Rattle.plain_region.specs.Carrying.{IsWithin, held_in};

use crate::cell_ref::CellRef;
use flow_model::Row;

/// What a region sees of the cells around it as its step begins: of its own cells the rows, and of those
/// in its halo what it was told they hold.
#[derive(Clone, Copy)]
pub(crate) struct Occupancies<'a> {
    pub(crate) rows: &'a [Row],
    pub(crate) put: &'a [Option<u64>],
}

impl Occupancies<'_> {
    /// What a cell holds.
    pub(crate) fn held(&self, cell: CellRef) -> u64
        requires { IsWithin (length self.now.rows.now) self.now.put.now cell }
        ensures { result ≡ held_in self.now.rows.now self.now.put.now cell }
    {
        match cell {
            CellRef::Own(p) => self.rows[p as usize].n,
            CellRef::Halo(p) => match self.put[p as usize] {
                Some(n) => n,
                None => 0,
            },
        }
    }
}
