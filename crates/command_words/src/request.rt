use crate::cut_kind::CutKind;
use crate::mode::Mode;
use crate::region_choice::RegionChoice;

/// What the words ask for. An option that they don't give has its default.
#[derive(Clone, Copy, Debug, PartialEq, Eq)]
pub struct Request {
    /// What to do.
    pub mode: Mode,
    /// Into how many regions the network is cut.
    pub regions: RegionChoice,
    /// Into which.
    pub cut: CutKind,
    /// Into how many parts of about as many steps a run is cut, each in a cutting of its own, 1 to 64.
    pub parts: u32,
    /// How many workers take the regions through the steps, 1 to 16.
    pub workers: u32,
    /// Every how many steps the state is recorded, up to 100,000; 0 for never.
    pub every: u32,
    /// How many shots are taken on the way, 1 to 64.
    pub shots: u32,
    /// Near which step a run is saved, up to 100,000.
    pub until: u32,
    /// How many main cells a made network has, 1 to 10,000.
    pub size: u32,
    /// Where the draws of a made network start, up to 999,999,999.
    pub seed: u32,
}
