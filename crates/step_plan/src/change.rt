/// A step at which a value changes, and the value from that step on.
#[derive(Clone, Copy, Debug, PartialEq, Eq)]
pub struct Change<T> {
    /// The first step at which the value is in force.
    pub step: u64,
    /// The value, in force up to the next change.
    pub value: T,
}
