ghost use Rattle.std.specs.Prelude.{◌≡◌, IfOk, length};

use crate::chains::Chains;
use no_memory::NoMemory;
use std::alloc::Global;

/// The cells that were met on a walk along chains, by their indices, and the place of each among them. The number
/// of cells is the place of one that wasn't met.
#[derive(Drop)]
pub(crate) struct Walk {
    pub(crate) placed: Vec<u32>,
    pub(crate) places: Vec<u32>,
    count: u32,
    ghost alike: { length places.items ≡ length placed.items },
}

impl Walk {
    /// The walk along all chains, each from its first cell on, and then along the rings.
    pub(crate) fn along(alloc: Global, chains: &Chains) -> Result<Walk, NoMemory> {
        let mut walk = Walk::begun(alloc, chains.cells())?;
        walk.follow_chains(chains);
        walk.follow_rings(chains);
        Ok(walk)
    }

    // No cells met yet.
    fn begun(alloc: Global, cells: u32) -> Result<Walk, NoMemory>
        ensures { IfOk result (λ walk. length walk.placed.items ≡ cells) }
    {
        let placed = vec![in alloc; 0; cells as usize]?;
        let places = vec![in alloc; cells; cells as usize]?;
        Ok(Walk {
            placed,
            places,
            count: 0,
        })
    }

    // Goes along the chains, each from the cell on to which no link leads.
    fn follow_chains(&mut self, chains: &Chains)
        requires { length self.old.placed.items ≡ chains.now }
        ensures { length self.new.placed.items ≡ chains.now }
    {
        for first in 0..chains.cells() {
            if !chains.is_led_to(first) {
                self.follow(chains, first);
            }
        }
    }

    // Goes along what is left, which are rings.
    fn follow_rings(&mut self, chains: &Chains)
        requires { length self.old.placed.items ≡ chains.now }
        ensures { length self.new.placed.items ≡ chains.now }
    {
        for first in 0..chains.cells() {
            self.follow(chains, first);
        }
    }

    // Places a cell and those to which links lead from it, up to one that is placed.
    fn follow(&mut self, chains: &Chains, first: u32)
        requires { length self.old.placed.items ≡ chains.now }
        ensures { length self.new.placed.items ≡ chains.now }
    {
        let cells = chains.cells();
        let mut cell = first;
        for place in self.count..cells {
            if cell >= cells || self.places[cell as usize] < cells {
                return;
            }
            self.placed[place as usize] = cell;
            self.places[cell as usize] = place;
            self.count = place + 1;
            cell = chains.next(cell);
        }
    }
}
