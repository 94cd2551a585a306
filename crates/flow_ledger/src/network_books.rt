/// The sums of a network, in parts.
#[derive(Clone, Copy, Debug, PartialEq, Eq)]
pub struct Books {
    /// What the roads and gates hold.
    pub inside: i128,
    /// The flights of all connectors together. It is negative where more has come into cells that are ahead than has
    /// gone out of the cells before them.
    pub flight: i128,
    /// What all cells held at step 0.
    pub initial: i128,
    /// All that has come into the gates.
    pub entered: i128,
    /// What the exits hold: all that has left the network.
    pub left: i128,
}
