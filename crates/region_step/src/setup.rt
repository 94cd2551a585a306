ghost use Rattle.std.specs.Prelude.{◌≡◌, IfOk, length};
ghost use Rattle.region_cut.specs.LawfulSteps.{AreLawful};
ghost use Rattle.region_step.specs.Setup.{setup_of, zero_setup};
ghost use Rattle.region_step.specs.Starting.{Fits, IsTrueStart};

use crate::start::Start;
use no_memory::NoMemory;
use region_cut::Layout;
use std::alloc::Global;
use std::marker::Model;

/// What regions are opened with: a network that is cut, where they start, each at a step of its own, and how often they are
/// recorded. They fit the network, and neighbours start at most one step apart.
#[derive(Drop)]
pub struct Setup<'n> {
    layout: Layout<'n>,
    start: Start,
    every: u64,
}

impl<'n> Model for Setup<'n> {
    ghost use Rattle.region_cut.specs.LawfulSteps.{AreLawful};
    ghost use Rattle.region_step.specs.Setup.{SetupValue, setup_of};
    ghost use Rattle.region_step.specs.Starting.{Fits};

    ghost Value = { SetupValue };

    ghost view = { λ setup. setup_of setup.layout setup.start setup.every };

    ghost invariant = { λ setup. Fits setup.layout.net setup.layout.chart.cut setup.start
        × AreLawful setup.layout.net setup.layout.chart.cut setup.start.steps };
}

impl<'n> Setup<'n> {
    /// Regions that start so. They are recorded at each step that `every` divides and at the last one, never where `every` is 0.
    pub fn new(layout: Layout<'n>, start: Start, every: u64) -> Setup<'n>
        requires fits { Fits layout.net layout.chart.cut start }
        requires lawful { AreLawful layout.net layout.chart.cut start.steps }
        ensures { result ≡ setup_of layout.entry start every }
    {
        Setup {
            layout,
            start,
            every,
        }
    }

    /// Regions that all start at step 0.
    pub fn zero(alloc: Global, layout: Layout<'n>, every: u64) -> Result<Setup<'n>, NoMemory>
        ensures setup { IfOk result (λ setup. setup ≡ zero_setup layout.entry every) }
        ensures true_start { IfOk result (λ setup. IsTrueStart setup.net setup.chart.cut setup.start) }
    {
        let start = Start::zero(alloc, &layout)?;
        Ok(Setup::new(layout, start, every))
    }

    /// The network that is cut.
    pub fn layout(&self) -> &Layout<'n>
        ensures network { result.now.net ≡ self.now.net }
        ensures chart { result.now.chart ≡ self.now.chart }
    {
        &self.layout
    }

    /// Where the regions start.
    pub fn start(&self) -> &Start
        ensures start { result.now ≡ self.now.start }
        ensures fits { Fits self.now.net self.now.chart.cut self.now.start }
        ensures lawful { AreLawful self.now.net self.now.chart.cut self.now.start.steps }
    {
        &self.start
    }

    /// Every how many steps they are recorded, 0 for never.
    pub fn every(&self) -> u64
        ensures { result ≡ self.now.every }
    {
        self.every
    }
}
