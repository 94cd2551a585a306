ghost use Rattle.std.specs.Prelude.{◌≡◌, ◌<◌, ◌^◌, All, IfOk, IfSome, length};

use network_file::{Connector, Net};
use no_memory::NoMemory;
use std::alloc::Global;
use std::marker::Model;

/// To which cell a link leads from each cell of a list, by their indices in the list. The number of cells stands
/// for none.
#[derive(Drop)]
pub(crate) struct Chains {
    next: Vec<u32>,
    is_led_to: Vec<bool>,
}

impl Model for Chains {
    ghost use Rattle.std.specs.Prelude.{ℕ, length, ◌≡◌, ◌<◌, ◌^◌};

    ghost Value = { ℕ };

    ghost view = { λ chains. length chains.next.items };

    ghost invariant = { λ chains. (length chains.is_led_to.items ≡ length chains.next.items) × (length chains.next.items < 2 ^ 32) };
}

impl Chains {
    /// The links among these connectors from one of these cells to another.
    pub(crate) fn of(
        alloc: Global,
        net: &Net,
        cells: &[u32],
        connectors: &[u32],
    ) -> Result<Chains, NoMemory>
        requires there { All (λ k. k < length net.now.connectors) connectors.now }
        requires few { length cells.now < 2 ^ 32 }
    {
        let mut chains = Chains::apart(alloc, cells.len() as u32)?;
        for k in connectors {
            if let Connector::Link { up, down } = net.connectors[*k as usize] {
                chains.join_cells(cells, up, down);
            }
        }
        Ok(chains)
    }

    /// How many cells there are.
    pub(crate) fn cells(&self) -> u32
        ensures { result ≡ self.now }
    {
        self.next.len() as u32
    }

    /// The cell to which a link leads from a cell.
    pub(crate) fn next(&self, cell: u32) -> u32
        requires { cell < self.now }
    {
        self.next[cell as usize]
    }

    /// Whether a link leads to a cell.
    pub(crate) fn is_led_to(&self, cell: u32) -> bool
        requires { cell < self.now }
    {
        self.is_led_to[cell as usize]
    }

    // So many cells without links.
    fn apart(alloc: Global, cells: u32) -> Result<Chains, NoMemory>
        ensures { IfOk result (λ chains. chains ≡ cells) }
    {
        let next = vec![in alloc; cells; cells as usize]?;
        let is_led_to = vec![in alloc; false; cells as usize]?;
        Ok(Chains { next, is_led_to })
    }

    // A link from one cell to another.
    fn join(&mut self, from: u32, to: u32)
        requires from { from < self.old }
        requires to { to < self.old }
        ensures { self.new ≡ self.old }
    {
        self.next[from as usize] = to;
        self.is_led_to[to as usize] = true;
    }

    // A link between two cells, where both are among these.
    fn join_cells(&mut self, cells: &[u32], up: u32, down: u32)
        requires one_each { length cells.now ≡ self.old }
        requires few { length cells.now < 2 ^ 32 }
        ensures { self.new ≡ self.old }
    {
        let [first, ..] = cells else {
            return;
        };
        let Some(from) = index_of(cells, up, up.saturating_sub(*first)) else {
            return;
        };
        if let Some(to) = index_of(cells, down, from + 1) {
            self.join(from, to);
        }
    }
}

// The index of a cell, where it is among cells in rising order; looked for first at the index that it mostly has.
fn index_of(cells: &[u32], cell: u32, guess: u32) -> Option<u32>
    requires { length cells.now < 2 ^ 32 }
    ensures { IfSome result (λ m. m < length cells.now) }
{
    if (guess as usize) < cells.len() && cells[guess as usize] == cell {
        return Some(guess);
    }
    match cells.binary_search(&cell) {
        Ok(m) => Some(m as u32),
        Err(_) => None,
    }
}
