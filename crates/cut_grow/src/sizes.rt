/// How many runs have a size, and how many one place more.
#[derive(Clone, Copy)]
pub(crate) struct Sizes {
    pub(crate) floor: u32,
    pub(crate) smalls: u32,
    pub(crate) larges: u32,
}
