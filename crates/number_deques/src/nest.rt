ghost use Rattle.std.specs.Prelude.{◌≡◌, ◌*◌, ◌/◌, ◌<◌};

use crate::deque::Deque;
use crate::thief::Thief;
use std::marker::Model;

/// A member's deque of numbers of regions, and its handles on those of the others.
#[derive(Drop)]
pub struct Nest {
    own: Deque,
    others: Vec<Thief>,
    // Numbers that the deque had no memory for, with room for those of all regions.
    refused: Vec<u32>,
    // A number stands for so many regions in a row.
    chunk_size: u32,
}

impl Model for Nest {
    ghost use Rattle.std.specs.Prelude.{◌≡◌, ◌+◌, ◌<◌, ◌≤◌, All, vec_len};
    ghost use Rattle.number_deques.specs.Nests.{NestValue};

    ghost Value = { NestValue };

    ghost view = { λ nest. record { members = vec_len nest.others + 1; regions = nest.own } };

    ghost invariant = { λ nest. All (λ regions. regions ≡ nest.own) nest.others.items × All (λ region. region < nest.own) nest.refused.items
        × (1 ≤ nest.chunk_size) };
}

impl Nest {
    ghost use Rattle.std.specs.Prelude.{◌≡◌, ◌+◌, ◌<◌, ◌≤◌, [], All, IfSome, vec_len};

    pub(crate) fn new(own: Deque, others: Vec<Thief>, refused: Vec<u32>, chunk_size: u32) -> Nest
        requires knows { All (λ regions. regions ≡ own) others.items }
        requires none { refused.items ≡ [] }
        requires some { 1 ≤ chunk_size }
        ensures { result ≡ record { members = vec_len others + 1; regions = own } }
    {
        Nest {
            own,
            others,
            refused,
            chunk_size,
        }
    }

    /// For how many regions a number stands, where there are so many from its own on: the last chunk may be shorter.
    pub fn chunk_size(&self) -> u32
        ensures { 1 ≤ result }
    {
        self.chunk_size
    }

    /// Takes out what the member's deque holds, with at most so many pops as there are regions, and pushes in order those
    /// multiples r of the chunk size of which `r·members/regions`, rounded down, is `number`.
    pub fn fill(&mut self, number: u32, members: u32, regions: u32)
        requires made { self.old ≡ record { members = members; regions = regions } }
        requires one_of { number < members }
        ensures { self.new ≡ self.old }
    {
        self.clear(regions);
        self.refused.clear();
        for region in 0..regions {
            if region % self.chunk_size == 0 && keeper(region, members, regions) == number {
                self.push(region);
            }
        }
    }

    // Pops at most so many numbers.
    fn clear(&mut self, most: u32)
        ensures { self.new ≡ self.old }
    {
        for _ in 0..most {
            if self.pop().is_none() {
                return;
            }
        }
    }

    /// Pushes a number on the member's deque, or keeps it for the next sweep where there is no memory for it.
    pub fn push(&mut self, region: u32)
        requires { region < self.old.regions }
        ensures { self.new ≡ self.old }
    {
        if !self.own.push(region) {
            let _kept = self.refused.push(region);
        }
    }

    /// Whether a number is kept that there was no memory for.
    pub fn has_refused(&self) -> bool {
        !self.refused.is_empty()
    }

    /// Pushes the numbers that there was no memory for, as far as there is now.
    pub fn push_refused(&mut self)
        ensures { self.new ≡ self.old }
    {
        while let Some(region) = self.refused.pop() {
            if !self.own.push(region) {
                let _kept = self.refused.push(region);
                return;
            }
        }
    }

    /// A number of the member's deque, or else of another's; where `steals` is true the other way round.
    pub fn next(&mut self, steals: bool) -> Option<u32>
        ensures same { self.new ≡ self.old }
        ensures below { IfSome result (λ region. region < self.old.regions) }
    {
        let first = if steals { self.steal() } else { self.pop() };
        if first.is_some() {
            return first;
        }
        if steals { self.pop() } else { self.steal() }
    }

    // A number of the member's deque.
    fn pop(&mut self) -> Option<u32>
        ensures same { self.new ≡ self.old }
        ensures below { IfSome result (λ region. region < self.old.regions) }
    {
        self.own.pop()
    }

    // A number of another member's deque.
    fn steal(&mut self) -> Option<u32>
        ensures same { self.new ≡ self.old }
        ensures below { IfSome result (λ region. region < self.old.regions) }
    {
        for k in 0..self.others.len() {
            let stolen = self.others[k].steal();
            if stolen.is_some() {
                return stolen;
            }
        }
        None
    }
}

// The member whose nest is filled with a region.
fn keeper(region: u32, members: u32, regions: u32) -> u32
    requires { region < regions }
    ensures { result ≡ region * members / regions }
{
    (u64::from(region) * u64::from(members) / u64::from(regions)) as u32
}
