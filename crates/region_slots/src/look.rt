use crate::field::{Field, Pass};
use crate::plays::Look;

impl<'a> Field<'a> {
    ghost use Rattle.std.specs.Prelude.{◌≡◌, ◌<◌, ◌≤◌, slice_index};
    ghost use Rattle.region_cut.specs.Cuttings.{region_count};
    ghost use Rattle.border_rows.specs.Kinds.{looked};
    ghost use Rattle.region_slots.specs.FieldView.{IsPassOf};

    /// The step that a region has published. It is looked at in this call.
    pub fn look(&self, pass: &mut Pass, region: u32) -> u64
        requires belongs { IsPassOf self.now pass.old }
        requires there { region < region_count self.now.terms.setup.now.chart.cut }
        ensures knows { pass.new.knows ≡ looked pass.old.knows region result }
        ensures later { slice_index pass.old.knows.seen region ≤ result }
        ensures in_time { result ≤ self.now.terms.setup.now.net.steps }
        ensures belongs { IsPassOf self.now pass.new × (pass.new.id ≡ pass.old.id) }
    {
        let word = self.places.step(region);
        self.table
            .shared
            .load::<Look>(&mut pass.seat, word as usize)
    }
}
