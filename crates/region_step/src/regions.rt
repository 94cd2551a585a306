ghost use Rattle.std.specs.Prelude.{◌≡◌, length};
ghost use Rattle.region_step.specs.Regions.{HaveCome, RegionsValue};

use crate::region::Region;
use crate::setup::Setup;
use std::marker::Model;

/// All regions of a setup, in order of number, each at a step of its own, as it came there from where it starts.
#[derive(Drop)]
pub struct Regions<'n> {
    setup: Setup<'n>,
    steps: Vec<u64>,
    list: Vec<Region>,
}

impl<'n> Model for Regions<'n> {
    ghost use Rattle.region_step.specs.Regions.{HaveCome, RegionsValue};

    ghost Value = { RegionsValue };

    ghost view = { λ regions. record { setup = regions.setup; steps = regions.steps.items; list = regions.list.items } };

    ghost invariant = { λ regions. HaveCome regions.setup regions.steps.items regions.list.items };
}

impl<'n> Regions<'n> {
    /// Regions that have come to these steps, one for each.
    pub fn new(setup: Setup<'n>, steps: Vec<u64>, list: Vec<Region>) -> Regions<'n>
        requires { HaveCome setup steps.items list.items }
        ensures { result ≡ record { setup = setup.entry; steps = steps.items; list = list.items } }
    {
        Regions { setup, steps, list }
    }

    /// What they were opened with.
    pub fn setup(&self) -> &Setup<'n>
        ensures setup { result.now ≡ self.now.setup }
        ensures come { HaveCome self.now.setup self.now.steps self.now.list }
    {
        &self.setup
    }

    /// The step of each.
    pub fn steps(&self) -> &[u64]
        ensures { result.now ≡ self.now.steps }
    {
        &self.steps
    }

    /// The regions.
    pub fn list(&self) -> &[Region]
        ensures { result.now ≡ self.now.list }
    {
        &self.list
    }
}
