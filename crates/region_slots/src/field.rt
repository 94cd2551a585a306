use crate::rule::Rule;
use atomic_table::{Seat, Table};
use border_rows::{Places, Terms, View};
use region_cut::Layout;
use region_step::Region;
use std::alloc::Global;
use std::marker::Model;

/// Regions that any thread may take, advance by a step and give back.
#[derive(Drop)]
pub struct Field<'a> {
    pub(crate) layout: &'a Layout<'a>,
    pub(crate) places: Places,
    pub(crate) table: Table<Region, View<'static>, Terms<'a>, Rule, Global>,
    // They are empty until it is closed, with room for one for each region.
    pub(crate) steps: Vec<u64>,
    pub(crate) regions: Vec<Region>,
}

impl<'a> Model for Field<'a> {
    ghost use Rattle.std.specs.Prelude.{◌≡◌, ◌≤◌, [], vec_capacity};
    ghost use Rattle.region_cut.specs.Cuttings.{region_count};
    ghost use Rattle.border_rows.specs.Places.{widths_of};
    ghost use Rattle.region_slots.specs.FieldView.{FieldValue, IsTableFor};

    ghost Value = { FieldValue };

    ghost view = { λ field. record { terms = field.table.shared.key; table = field.table.shared.table_id } };

    ghost invariant = { λ field. (field.table.shared.key.setup.now.net ≡ field.layout.now.net) × (field.table.shared.key.setup.now.chart ≡ field.layout.now.chart)
        × (field.places ≡ widths_of field.layout.now.chart) × IsTableFor field.table.shared.key field.table.shared.table_id
        × (field.steps.items ≡ []) × (region_count field.layout.now.chart.cut ≤ vec_capacity field.steps)
        × (field.regions.items ≡ []) × (region_count field.layout.now.chart.cut ≤ vec_capacity field.regions) };
}

impl<'a> Field<'a> {
    ghost use Rattle.std.specs.Prelude.{◌≡◌};
    ghost use Rattle.region_cut.specs.Cuttings.{region_count};

    /// How many regions the field has.
    pub fn regions(&self) -> u32
        ensures { result ≡ region_count self.now.terms.setup.now.chart.cut }
    {
        self.layout.regions()
    }
}

/// A caller's seat at a field. It lends nothing of the field, and one that is dropped takes its share with it.
#[derive(Drop)]
pub struct Pass {
    pub(crate) seat: Seat<Region, View<'static>>,
}

impl Model for Pass {
    ghost use Rattle.region_slots.specs.FieldView.{IsIdle, PassValue};

    ghost Value = { PassValue };

    ghost view = { λ pass. record { knows = pass.seat.me.0; id = pass.seat.id; table = pass.seat.table_id } };

    ghost invariant = { λ pass. IsIdle pass.seat.me.0 pass.seat.me.1 };
}
