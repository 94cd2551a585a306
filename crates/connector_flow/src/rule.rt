/// By which rule a connector carries.
#[derive(Clone, Copy)]
pub enum Rule {
    /// From the first of its cells to the second. The third is the second once more.
    Linking,
    /// From the first and the second of its cells to the third.
    Merging,
    /// From the first of its cells to the second and the third.
    Diverging,
}
