ghost use Rattle.std.specs.Prelude.{◌≡◌, ℕ, ◌+◌, ◌<◌, ◌==◌, [], ◌∷◌, ◌++◌, IfOk, if◌then◌else◌, length};
ghost use Rattle.region_cut.specs.Chart.{list_at};

use no_memory::NoMemory;
use std::alloc::Global;
use std::marker::Model;

/// A list for each region.
#[derive(Drop)]
pub(crate) struct Lists<T> {
    lists: Vec<Vec<T>>,
}

impl<T> Model for Lists<T> {
    ghost use Rattle.std.specs.Prelude.{List, map};

    ghost Value = { List (List T) };

    ghost view = { λ a. map (λ list. list.items) a.lists.items };
}

impl<T: Drop> Lists<T> {
    /// No lists yet.
    pub(crate) fn new(alloc: Global) -> Lists<T>
        ensures { result ≡ [] }
    {
        Lists {
            lists: Vec::new(alloc),
        }
    }

    /// How many there are.
    pub(crate) fn len(&self) -> usize
        ensures { result ≡ length self.now }
    {
        self.lists.len()
    }

    /// The list of region `r`.
    pub(crate) fn at(&self, r: u32) -> &[T]
        requires { r < length self.now }
        ensures { result.now ≡ list_at self.now r }
    {
        &self.lists[r as usize]
    }

    /// One list more.
    pub(crate) fn add(&mut self, list: Vec<T>) -> Result<(), NoMemory>
        ensures { IfOk result (λ _. self.new ≡ self.old ++ list.items ∷ []) }
    {
        self.lists.push(list)?;
        Ok(())
    }

    /// One item more for region `r`.
    pub(crate) fn push(&mut self, r: u32, item: T) -> Result<(), NoMemory>
        requires { r < length self.old }
        ensures count { IfOk result (λ _. length self.new ≡ length self.old) }
        ensures lists { IfOk result (λ _. (q : ℕ) → list_at self.new q ≡ list_at self.old q ++ (if r == q then item ∷ [] else [])) }
    {
        let list = &mut self.lists[r as usize];
        list.push(item)?;
        Ok(())
    }
}
