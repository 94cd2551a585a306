use timelines::Timeline;

/// A gate among the cells, and where it stands.
#[derive(Drop)]
pub(crate) struct GatePlace {
    /// The number of its place.
    pub(crate) place: u32,
    /// What it demands, followed forward.
    pub(crate) timeline: Timeline<u64>,
}
