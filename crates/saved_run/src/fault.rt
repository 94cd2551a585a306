use network_file::NetFault;

/// Why a run can't go on from a text. They are looked for in this order.
#[derive(Clone, Copy, Debug, PartialEq, Eq)]
pub enum LoadFault {
    /// It is no saved text.
    Spelling,
    /// Its network has this fault.
    Network(NetFault),
    /// Its row lines give no cutting of the network with a step for each region.
    Cutting,
    /// The regions can't start there: a row is out of bounds, or the steps aren't lawful.
    Start,
}
