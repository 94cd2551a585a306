/// A cell of another region that a connector of the region touches.
#[derive(Clone, Copy, Debug, PartialEq, Eq)]
pub struct Halo {
    /// Its number in the network.
    pub cell: u32,
    /// Its region, a neighbour.
    pub region: u32,
    /// Its place in that region's border.
    pub place: u32,
}
