use network_file::Net;
use region_cut::Chart;
use region_step::Start;

/// A saved run: its network, how that is cut, and where its regions go on.
#[derive(Drop)]
pub struct Saved {
    /// The network.
    pub net: Net,
    /// The chart of its cutting.
    pub chart: Chart,
    /// The step of each region, with its rows there.
    pub start: Start,
}
