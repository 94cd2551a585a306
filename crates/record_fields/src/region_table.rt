ghost use Rattle.std.specs.Prelude.{◌≡◌, ◌==◌, ◌++◌, ◌∷◌, [], ℕ, None, IfOk, OnOk, MatchOption, if◌then◌else◌, length, slice_index_or, false, true};
ghost use Rattle.record_fields.specs.Regions.{all_have_regions, region_in, region_numbers};

use crate::region_record::RegionRecord;
use no_memory::NoMemory;
use std::alloc::Global;
use std::marker::Model;

/// The region records read so far, in order, with the number of each cell's region under the cell.
#[derive(Drop)]
pub struct RegionTable {
    // Behind a pointer, since each record hands the table on.
    parts: Box<RegionParts>,
}

#[derive(Drop)]
struct RegionParts {
    records: Vec<RegionRecord>,
    numbers: Vec<Option<u32>>,
}

impl Model for RegionTable {
    ghost use Rattle.std.specs.Prelude.{List};
    ghost use Rattle.record_fields.specs.declared.region_record.RegionRecord.{RegionRecord};

    ghost Value = { List RegionRecord };

    ghost use Rattle.std.specs.Prelude.{◌≡◌, ℕ, None, slice_index_or};
    ghost use Rattle.record_fields.specs.Regions.{region_in};

    ghost view = { λ a. a.parts.value.records.items };

    ghost invariant = { λ a. (cell : ℕ) → slice_index_or a.parts.value.numbers.items cell None ≡ region_in a.parts.value.records.items cell };
}

impl RegionTable {
    /// The table without records; an error says that memory was refused.
    pub fn new(alloc: Global) -> Result<RegionTable, NoMemory>
        ensures { IfOk result (λ regions. regions ≡ []) }
    {
        let parts = RegionParts {
            records: Vec::new(alloc),
            numbers: Vec::new(alloc),
        };
        Ok(RegionTable {
            parts: Box::new(alloc, parts)?,
        })
    }

    /// Whether the file has given no region so far.
    pub fn is_empty(&self) -> bool
        ensures { result ≡ (length self.now == 0) }
    {
        self.parts.records.is_empty()
    }

    /// The number of the cell's region, where a record gave it one.
    pub fn number_of(&self, cell: u32) -> Option<u32>
        ensures { result ≡ region_in self.now cell }
    {
        match self.parts.numbers.get(cell as usize) {
            Some(number) => *number,
            None => None,
        }
    }

    /// With the region of one more cell.
    pub fn with(self, cell: u32, number: u32) -> Result<RegionTable, NoMemory>
        requires { region_in self cell ≡ None }
        ensures { IfOk result (λ more. more ≡ self ++ record { cell = cell; number = number } ∷ []) }
    {
        let RegionTable { mut parts } = self;
        let RegionParts { records, numbers } = &mut *parts;
        put_number(numbers, cell, number)?;
        records.push(RegionRecord { cell, number })?;
        Ok(RegionTable { parts })
    }

    /// The number of each of so many cells, where each has one.
    pub fn numbers(&self, alloc: Global, cells: u32) -> Result<Option<Vec<u32>>, NoMemory>
        ensures { IfOk result (λ numbers. MatchOption numbers (all_have_regions cells self.now ≡ false)
            (λ all. (all_have_regions cells self.now ≡ true) × (all.items ≡ region_numbers cells self.now))) }
    {
        let mut numbers = Vec::new(alloc);
        for cell in 0..cells {
            match self.number_of(cell) {
                Some(number) => numbers.push(number)?,
                None => return Ok(None),
            }
        }
        Ok(Some(numbers))
    }
}

// Puts the number of one more cell's region.
fn put_number(numbers: &mut Vec<Option<u32>>, cell: u32, number: u32) -> Result<(), NoMemory>
    ensures { OnOk result ((i : ℕ) → slice_index_or numbers.new.items i None
        ≡ (if i == cell then Some number else slice_index_or numbers.old.items i None)) }
{
    let at = cell as usize;
    if numbers.len() <= at {
        numbers.resize(at + 1, None)?;
    }
    numbers[at] = Some(number);
    Ok(())
}
