ghost use Rattle.std.specs.Prelude.{◌≡◌, ◌<◌, ◌≤◌, ◌∷◌, ◌++◌, [], ℕ, None, Some, IfOk, OnOk, length};
ghost use Rattle.network_file.specs.Cells.{cell_named, name_at};
ghost use Rattle.network_file.specs.NameIndexing.{IsIndexOf};
ghost use Rattle.network_file.specs.declared.limits.TheConstants.{MOST_BYTES};
ghost use Rattle.step_plan.specs.declared.bounds.TheConstants.{MOST_RECORDS};

use crate::buckets::Buckets;
use crate::cell::Cell;
use crate::limits::MOST_BYTES;
use no_memory::NoMemory;
use std::alloc::Global;
use step_plan::MOST_RECORDS;

/// The most cells of a chain in buckets by the seed that all files share. Names that weren't looked for fall into far
/// shorter ones.
const LONGEST_CHAIN: usize = 32;

/// Where the cells of a list are found by their names. The cells whose names fall into one bucket are chained, the
/// last of them first; a chain ends where the number is 0, and so each number is one more than a cell's.
#[derive(Drop)]
pub(crate) struct NameIndex {
    buckets: Buckets,
    /// Whether the buckets are by a seed of the file's own.
    has_own_seed: bool,
    /// For each bucket one more than the number of its last cell.
    ends: Vec<u32>,
    /// For each cell one more than the number of the cell before it in its bucket.
    earlier: Vec<u32>,
}

impl NameIndex {
    /// The index of no cells, for those of a file.
    pub(crate) fn of_file(alloc: Global, bytes: &[u8]) -> Result<NameIndex, NoMemory>
        requires { length bytes.now ≤ MOST_BYTES }
        ensures { IfOk result (λ index. IsIndexOf index []) }
    {
        NameIndex::without_cells(alloc, Buckets::of_file(bytes), false)
    }

    fn without_cells(
        alloc: Global,
        buckets: Buckets,
        has_own_seed: bool,
    ) -> Result<NameIndex, NoMemory>
        ensures { IfOk result (λ index. IsIndexOf index []) }
    {
        let mut ends = Vec::new(alloc);
        ends.resize(buckets.last as usize + 1, 0)?;
        Ok(NameIndex {
            buckets,
            has_own_seed,
            ends,
            earlier: Vec::new(alloc),
        })
    }

    /// The number of the cell of this name.
    pub(crate) fn find(&self, cells: &[Cell], name: &[u8]) -> Option<u32>
        requires { IsIndexOf self.now cells.now }
        ensures { result ≡ cell_named cells.now name.now }
    {
        let mut end = self.ends[self.buckets.bucket(name)];
        while end > 0 {
            let cell = end - 1;
            if cells[cell as usize].name.bytes() == name {
                return Some(cell);
            }
            end = self.earlier[cell as usize];
        }
        None
    }

    /// Adds one more cell, whose name none of the cells has yet.
    pub(crate) fn add(&mut self, cells: &[Cell], cell: &Cell) -> Result<(), NoMemory>
        requires of { IsIndexOf self.old cells.now }
        requires room { length cells.now < MOST_RECORDS }
        requires fresh { cell_named cells.now cell.now.name ≡ None }
        ensures { OnOk result (IsIndexOf self.new (cells.now ++ cell.now ∷ [])) }
    {
        let bucket = self.buckets.bucket(cell.name.bytes());
        self.earlier.push(self.ends[bucket])?;
        self.ends[bucket] = cells.len() as u32 + 1;
        Ok(())
    }

    /// Puts the cells into buckets by a seed of the file's own, where the last one's chain is too long for the seed that
    /// all files share.
    pub(crate) fn spread(&mut self, cells: &[Cell], bytes: &[u8]) -> Result<(), NoMemory>
        requires { IsIndexOf self.old cells.now }
        ensures { OnOk result (IsIndexOf self.new cells.now) }
    {
        if self.has_own_seed || !self.has_long_chain() {
            return Ok(());
        }
        self.spread_by_digest(cells, bytes)
    }

    // Hardly a file comes here, so it is kept apart from what each cell takes.
    #[cold]
    #[inline(never)]
    fn spread_by_digest(&mut self, cells: &[Cell], bytes: &[u8]) -> Result<(), NoMemory>
        requires { IsIndexOf self.old cells.now }
        ensures { OnOk result (IsIndexOf self.new cells.now) }
    {
        let alloc = *self.ends.allocator();
        *self = NameIndex::of_cells(alloc, self.buckets.by_digest(bytes), cells)?;
        Ok(())
    }

    // Whether the last cell's chain is too long.
    fn has_long_chain(&self) -> bool {
        let mut end = self.earlier.len();
        for _ in 0..LONGEST_CHAIN {
            let Some(cell) = end.checked_sub(1) else {
                return false;
            };
            end = match self.earlier.get(cell) {
                Some(earlier) => *earlier as usize,
                None => 0,
            };
        }
        end > 0
    }

    // The index of cells of which no two have one name, in buckets by the file's own seed.
    fn of_cells(alloc: Global, buckets: Buckets, cells: &[Cell]) -> Result<NameIndex, NoMemory>
        requires few { length cells.now ≤ MOST_RECORDS }
        requires apart { (i : ℕ) → i < length cells.now → cell_named cells.now (name_at cells.now i) ≡ Some i }
        ensures { IfOk result (λ index. IsIndexOf index cells.now) }
    {
        let mut index = NameIndex::without_cells(alloc, buckets, true)?;
        for i in 0..cells.len() {
            index.add(&cells[..i], &cells[i])?;
        }
        Ok(index)
    }
}
