/// A value that is in force, and the first step at which that may end.
#[derive(Clone, Copy, Debug, PartialEq, Eq)]
pub struct Now<T> {
    /// The value.
    pub value: T,
    /// The first step at which it may be another, `u64::MAX` where it stays.
    pub until: u64,
}
