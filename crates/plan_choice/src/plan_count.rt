/// The number of separators of an input that has none, or more than 16.
#[derive(Clone, Copy, Debug, PartialEq, Eq)]
pub struct PlanCount {
    /// Their number.
    pub found: u64,
}
