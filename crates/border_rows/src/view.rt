use region_step::Setup;

/// What a field was opened with, as its rule is told it once.
#[derive(Clone, Copy)]
pub struct Terms<'a> {
    /// What its regions were opened with.
    pub setup: &'a Setup<'a>,
    /// How many seats there are in all.
    pub seats: u64,
}

/// A region as a seat holds it. No value of it is made.
pub struct Hold {
    /// The number of the region.
    pub region: u64,
    /// Whether the seat knows the step at which it took the region.
    pub known: bool,
    /// The step at which the seat took the region, where it is known.
    pub step: u64,
    /// The neighbours that it has found at that step or past it.
    pub cleared: [u64; 0],
    /// How many border words of the step to come it has written.
    pub written: u64,
    /// Whether it has published the step to come.
    pub published: bool,
}

/// A step that a region has published.
pub struct PublishedStep {
    /// The number of the region.
    pub region: u64,
    /// The step that it published.
    pub step: u64,
}

/// A neighbour that was found a step lower than a region.
pub struct Short {
    /// The number of the region that was to go on.
    pub region: u64,
    /// The number of the neighbour that has to go first.
    pub neighbour: u64,
    /// The step at which the neighbour was found.
    pub step: u64,
}

/// What a seat at a field knows, as contracts see it. No value of it is made, so its lists have no room.
pub struct View<'a> {
    /// What the field was opened with: one, and none for a seat that is spent.
    pub terms: [Terms<'a>; 0],
    /// Its part of the field's seats. One that has none is spent.
    pub share: u64,
    /// For each region a step that its word has reached.
    pub seen: [u64; 0],
    /// The steps that were published through it: its own, the last one first, and behind them those of seats that it joined.
    pub log: [PublishedStep; 0],
    /// No step published through it lies past this one.
    pub reach: u64,
    /// How many seats were shared off from it.
    pub splits: u64,
    /// For each region how often its claim word was found taken.
    pub held_found: [u64; 0],
    /// How often a neighbour was found a step lower.
    pub short_found: u64,
    /// The last such.
    pub last_short: Short,
    /// For each region how often its step word was looked at, by itself or when it was taken.
    pub looks: [u64; 0],
    /// For each region how often it was taken and its step word looked at behind its claim word.
    pub takes: [u64; 0],
    /// The regions whose claim word was tried, in the order of the tries.
    pub tried: [u64; 0],
    /// At how many moments it held all regions.
    pub moments: u64,
    /// The steps of all regions at the last such moment of its own.
    pub moment: [u64; 0],
    /// The regions that it holds.
    pub holds: [Hold; 0],
}
