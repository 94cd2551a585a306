ghost use Rattle.std.specs.Prelude.{◌≡◌, ◌||◌, ◌==◌, ℕ, false, OnErr, OnOk};
ghost use Rattle.record_fields.specs.Marks.{is_marked};

use no_memory::NoMemory;
use std::alloc::Global;

/// A set of cell numbers, as one mark for each number up to the greatest.
#[derive(Drop)]
pub struct Marks {
    marks: Vec<bool>,
}

impl std::marker::Model for Marks {
    ghost use Rattle.std.specs.Prelude.{Bool, List};

    ghost Value = { List Bool };

    ghost view = { λ a. a.marks.items };
}

impl Marks {
    /// The empty set. It takes no memory.
    pub fn new(alloc: Global) -> Marks
        ensures { (i : ℕ) → is_marked result i ≡ false }
    {
        Marks {
            marks: Vec::new(alloc),
        }
    }

    /// Whether a number is in the set; it may be any, also one above the greatest.
    pub fn has(&self, i: u32) -> bool
        ensures { result ≡ is_marked self.now i }
    {
        match self.marks.get(i as usize) {
            Some(mark) => *mark,
            None => false,
        }
    }

    /// Puts one more number into the set, where memory for a mark of each number up to it is given.
    pub fn mark(&mut self, i: u32) -> Result<(), NoMemory>
        ensures marked { OnOk result ((j : ℕ) → is_marked self.new j ≡ ((j == i) || is_marked self.old j)) }
        ensures unchanged { OnErr result (self.new ≡ self.old) }
    {
        let at = i as usize;
        if self.marks.len() <= at {
            self.marks.resize(at + 1, false)?;
        }
        self.marks[at] = true;
        Ok(())
    }
}
