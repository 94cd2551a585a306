ghost use Rattle.std.specs.Prelude.{◌≡◌, ◌+◌, ◌<◌, ℕ, IfOk, OnOk, Some, length, slice_index, slice_set};
ghost use Rattle.network_file.specs.Network.{Network};
ghost use Rattle.flow_model.specs.State.{occupancy};
ghost use Rattle.region_cut.specs.Chart.{ChartLists, list_at};
ghost use Rattle.region_cut.specs.Cuttings.{region_count};
ghost use Rattle.region_step.specs.Advance.{HasHaloPut, HasRowsInBounds};
ghost use Rattle.region_step.specs.Region.{RegionState};
ghost use Rattle.region_step.specs.Starting.{Fits};
ghost use Rattle.run_trials.specs.Rounds.{IsAt, IsShaped};

use no_memory::NoMemory;
use plain_region::PlainRegion;
use region_cut::Layout;
use region_step::{Region, Start};
use std::alloc::Global;

// A region with one of the two bodies.
pub(crate) trait Body: Sized + Drop {
    // How far it has come.
    ghost state: { Self → RegionState };

    // It was opened with this network and this chart.
    ghost is_in: { Network → ChartLists → Self → Type 0 };

    // Region `r` at the step at which it starts.
    fn opened(
        alloc: Global,
        layout: &Layout,
        start: &Start,
        r: u32,
        every: u64,
    ) -> Result<Self, NoMemory>
        requires fits { Fits layout.now.net layout.now.chart.cut start.now }
        requires there { r < region_count layout.now.chart.cut }
        ensures opened { IfOk result (λ body. is_in layout.now.net layout.now.chart body) }
        ensures at_start { IfOk result (λ body. IsAt layout.now.net layout.now.chart r (slice_index start.now.steps r) (state body)) };

    // What its `j`-th border cell holds.
    fn at_border(&self, layout: &Layout, j: u32) -> u64
        requires opened { is_in layout.now.net layout.now.chart self.now }
        requires there { j < length (list_at layout.now.chart.border (state self.now).number) }
        ensures { (p : ℕ) → p < length (list_at layout.now.chart.cells (state self.now).number) →
            slice_index (list_at layout.now.chart.cells (state self.now).number) p ≡ slice_index (list_at layout.now.chart.border (state self.now).number) j →
            result ≡ occupancy (state self.now).rows p };

    // Tells what the `j`-th cell of its halo holds.
    fn tell(&mut self, j: u32, n: u64)
        requires { j < length (state self.old).put }
        ensures put { state self.new ≡ record (state self.old) { put = slice_set (state self.old).put j (Some n) } }
        ensures opened { (net : Network) (chart : ChartLists) → is_in net chart self.old → is_in net chart self.new };

    // Takes it through its step.
    fn take_step(&mut self, layout: &Layout) -> Result<(), NoMemory>
        requires opened { is_in layout.now.net layout.now.chart self.old }
        requires in_time { (state self.old).step < layout.now.net.steps }
        requires in_bounds { HasRowsInBounds layout.now.net layout.now.chart (state self.old) }
        requires halo { HasHaloPut layout.now.net layout.now.chart (state self.old) }
        ensures opened { OnOk result (is_in layout.now.net layout.now.chart self.new) }
        ensures at_next { OnOk result (IsAt layout.now.net layout.now.chart (state self.old).number ((state self.old).step + 1) (state self.new)) };

    ghost shaped: { (net : Network) (chart : ChartLists) (body : Self) → is_in net chart body → IsShaped chart (state body) };
}

impl Body for Region {
    ghost use Rattle.region_step.specs.Opened.{IsIn};

    ghost state = { λ region. region.state };

    ghost is_in = { IsIn };

    fn opened(
        alloc: Global,
        layout: &Layout,
        start: &Start,
        r: u32,
        every: u64,
    ) -> Result<Region, NoMemory> {
        Region::open(alloc, layout, start, r, every)
    }

    fn at_border(&self, layout: &Layout, j: u32) -> u64 {
        self.border_now(layout, j)
    }

    fn tell(&mut self, j: u32, n: u64) {
        self.halo_put(j, n);
    }

    fn take_step(&mut self, layout: &Layout) -> Result<(), NoMemory> {
        self.advance(layout);
        Ok(())
    }

    ghost shaped = { λ net chart region inside. record { there = inside.one_of.there; rows = inside.one_of.rows; before = inside.one_of.before; put = inside.one_of.put } };
}

impl Body for PlainRegion {
    ghost use Rattle.plain_region.specs.Opened.{IsIn};

    ghost state = { λ region. region.state };

    ghost is_in = { IsIn };

    fn opened(
        alloc: Global,
        layout: &Layout,
        start: &Start,
        r: u32,
        every: u64,
    ) -> Result<PlainRegion, NoMemory> {
        PlainRegion::open(alloc, layout, start, r, every)
    }

    fn at_border(&self, layout: &Layout, j: u32) -> u64 {
        self.border_now(layout, j)
    }

    fn tell(&mut self, j: u32, n: u64) {
        self.halo_put(j, n);
    }

    fn take_step(&mut self, layout: &Layout) -> Result<(), NoMemory> {
        self.advance(layout)
    }

    ghost shaped = { λ net chart region inside. record { there = inside.one_of.there; rows = inside.one_of.rows; before = inside.one_of.before; put = inside.one_of.put } };
}
