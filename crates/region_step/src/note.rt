/// What is noted of a cell at a recorded step, in parts.
#[derive(Clone, Copy, Debug, PartialEq, Eq)]
pub struct Note {
    /// What the cell held.
    pub n: u64,
    /// All that had gone out of it since step 0.
    pub gone: u64,
}
