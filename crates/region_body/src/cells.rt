use chain_order::Order;

/// Some cells of a network, in rising order, and what is around them.
#[derive(Clone, Copy, Debug)]
pub struct Cells<'a> {
    /// Their numbers.
    pub cells: &'a [u32],
    /// The order in which they are placed.
    pub order: &'a Order,
    /// The cells of others that a connector joins them to, in rising order.
    pub halo: &'a [u32],
    /// The connectors that touch them, in rising order.
    pub connectors: &'a [u32],
}
