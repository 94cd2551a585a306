ghost use Rattle.std.specs.Prelude.{◌≡◌, IfSome};
ghost use Rattle.command_words.specs.Values.{AreRegions, regions_named};

use crate::number::number_within;

/// The most regions.
const MOST_REGIONS: u32 = 512;

/// Into how many regions a network is cut.
#[derive(Clone, Copy, Debug, PartialEq, Eq)]
pub enum RegionChoice {
    /// As many as the cells and the workers are good for.
    Auto,
    /// So many, 1 to 512.
    Count(u32),
}

impl RegionChoice {
    /// What a text stands for: `auto`, or a number.
    #[tactic(auto, unfolding(crate::specs::Values::regions_named))]
    pub fn named(text: &str) -> Option<RegionChoice>
        ensures named { result ≡ regions_named text.now }
        ensures in_range { IfSome result AreRegions }
    {
        if text == "auto" {
            return Some(RegionChoice::Auto);
        }
        match number_within(text, 1, MOST_REGIONS) {
            Some(regions) => Some(RegionChoice::Count(regions)),
            None => None,
        }
    }
}
