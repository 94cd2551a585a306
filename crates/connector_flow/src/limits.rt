use crate::weight_pair::WeightPair;

/// What bounds the flow of a connector in a step, whatever its cells hold.
#[derive(Clone, Copy)]
pub(crate) struct Limits {
    /// The most parts that the first of its cells sends.
    pub(crate) first: u64,
    /// The most that the second sends or receives.
    pub(crate) second: u64,
    /// The most that the third receives.
    pub(crate) third: u64,
    /// The priorities of a merge, the turning shares of a diverge.
    pub(crate) weights: WeightPair,
}
