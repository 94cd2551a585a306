use crate::field::{Field, Pass};
use region_step::Region;

/// What a field comes to: the step of each region, and the regions at these steps.
#[derive(Drop)]
pub struct Closed {
    /// The step of each region, in order of number.
    pub steps: Vec<u64>,
    /// The regions at these steps, in order of number.
    pub regions: Vec<Region>,
}

impl<'a> Field<'a> {
    ghost use Rattle.std.specs.Prelude.{◌≡◌, ◌<◌, ◌≤◌, ℕ, length, max, slice_index};
    ghost use Rattle.region_cut.specs.Cuttings.{region_count};
    ghost use Rattle.region_cut.specs.LawfulSteps.{AreLawful};
    ghost use Rattle.region_step.specs.Regions.{HaveCome};
    ghost use Rattle.region_slots.specs.Closing.{AreLogged, steps_since};
    ghost use Rattle.region_slots.specs.FieldView.{IsPassOf};

    /// Closes the field with the pass that has all of its seats, and gives its regions. It takes no memory.
    pub fn close(self, pass: Pass) -> Closed
        requires belongs { IsPassOf self pass }
        requires whole { pass.knows.share ≡ self.terms.seats }
        ensures come { HaveCome self.entry.terms.setup.now result.steps.items result.regions.items }
        ensures lawful { AreLawful self.entry.terms.setup.now.net self.entry.terms.setup.now.chart.cut result.steps.items }
        ensures later { (r : ℕ) → r < region_count self.entry.terms.setup.now.chart.cut → slice_index pass.knows.seen r ≤ slice_index result.steps.items r }
        ensures reached { (r : ℕ) → r < region_count self.entry.terms.setup.now.chart.cut → slice_index result.steps.items r ≤ max (slice_index self.entry.terms.setup.now.start.steps r) pass.knows.reach }
        ensures moves { steps_since self.entry.terms.setup.now.start (region_count self.entry.terms.setup.now.chart.cut) result.steps.items ≡ length pass.knows.log }
        ensures logged { AreLogged self.entry.terms.setup.now.start (region_count self.entry.terms.setup.now.chart.cut) result.steps.items pass.knows.log }
    {
        let Field {
            layout,
            places,
            table,
            mut steps,
            mut regions,
        } = self;
        let Pass { seat } = pass;
        let mut closed = table.close_with(seat);
        let mut r = 0;
        while r < layout.regions() {
            let word = places.step(r);
            steps.push_reserved(closed.word(word as usize));
            regions.push_reserved(closed.take(r as usize));
            r += 1;
        }
        closed.free();
        Closed { steps, regions }
    }
}
