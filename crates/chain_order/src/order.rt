ghost use Rattle.std.specs.Prelude.{◌≡◌, ◌<◌, ◌^◌, ℕ, All, IfOk, length, map, slice_index};
ghost use Rattle.chain_order.specs.Order.{IsOrder};

use crate::chains::Chains;
use crate::inverse::are_inverse;
use crate::walk::Walk;
use network_file::{Connector, Net};
use no_memory::NoMemory;
use std::alloc::Global;
use std::marker::Model;

/// Cells in an order in which the cells of each chain of links lie side by side, and the place of each.
#[derive(Debug, Drop)]
pub struct Order {
    placed: Vec<u32>,
    places: Vec<u32>,
}

impl Model for Order {
    ghost use Rattle.chain_order.specs.Order.{OrderLists};

    ghost Value = { OrderLists };

    ghost view = { λ order. record { placed = order.placed.items; places = order.places.items } };
}

impl Order {
    /// The order of these cells by the links among these connectors: chains in the order of their first cells, and
    /// then rings. Where each link leads to the next cell of the file, it is the order that was given. Links of cells that
    /// don't stand in rising order may be missed.
    pub fn of(
        alloc: Global,
        net: &Net,
        cells: &[u32],
        connectors: &[u32],
    ) -> Result<Order, NoMemory>
        requires there { All (λ k. k < length net.now.connectors) connectors.now }
        requires few { length cells.now < 2 ^ 32 }
        ensures { IfOk result (IsOrder cells.now) }
    {
        if are_in_order(net, connectors) {
            return as_given(alloc, cells);
        }
        let chains = Chains::of(alloc, net, cells, connectors)?;
        let Walk { placed, places, .. } = Walk::along(alloc, &chains)?;
        if are_inverse(cells.len(), &placed, &places) {
            let placed = cells_at(alloc, cells, &placed)?;
            Ok(Order { placed, places })
        } else {
            as_given(alloc, cells)
        }
    }

    /// The cells one after the other.
    pub fn placed(&self) -> &[u32]
        ensures { result.now ≡ self.now.placed }
    {
        &self.placed
    }

    /// The place of each cell, in the order that was given.
    pub fn places(&self) -> &[u32]
        ensures { result.now ≡ self.now.places }
    {
        &self.places
    }
}

// Whether each link among these connectors leads to the next cell of the file, so that chains lie side by side as they are.
fn are_in_order(net: &Net, connectors: &[u32]) -> bool
    requires { All (λ k. k < length net.now.connectors) connectors.now }
{
    connectors
        .iter()
        .all(|k| match net.connectors[*k as usize] {
            Connector::Link { up, down } => up.checked_add(1) == Some(down),
            Connector::Merge { .. } | Connector::Diverge { .. } => true,
        })
}

// The cells at these indices.
fn cells_at(alloc: Global, cells: &[u32], indices: &[u32]) -> Result<Vec<u32>, NoMemory>
    requires { All (λ m. m < length cells.now) indices.now }
    ensures { IfOk result (λ found. found.items ≡ map (slice_index cells.now) indices.now) }
{
    Ok(indices.iter().map(|m| cells[*m as usize]).collect(alloc)?)
}

// The order that was given.
fn as_given(alloc: Global, cells: &[u32]) -> Result<Order, NoMemory>
    requires { length cells.now < 2 ^ 32 }
    ensures { IfOk result (IsOrder cells.now) }
{
    let placed = copied(alloc, cells)?;
    let places = numbers(alloc, cells.len() as u32)?;
    Ok(Order { placed, places })
}

// A list once more.
fn copied(alloc: Global, list: &[u32]) -> Result<Vec<u32>, NoMemory>
    ensures { IfOk result (λ copy. copy.items ≡ list.now) }
{
    Ok(list.iter().copied().collect(alloc)?)
}

// So many numbers from 0 on.
fn numbers(alloc: Global, count: u32) -> Result<Vec<u32>, NoMemory>
    ensures long { IfOk result (λ numbers. length numbers.items ≡ count) }
    ensures own { IfOk result (λ numbers. (m : ℕ) → m < count → slice_index numbers.items m ≡ m) }
{
    let mut numbers = Vec::with_capacity(alloc, count as usize)?;
    for m in 0..count {
        numbers.push(m)?;
    }
    Ok(numbers)
}
