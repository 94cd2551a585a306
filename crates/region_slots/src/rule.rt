ghost use Rattle.border_rows.specs.Standing.{IsStanding};
ghost use Rattle.region_slots.specs.Opening.{first_view};

use atomic_table::TableRule;
use border_rows::{Terms, View};
use region_step::Region;

/// The rule of the field's table.
pub(crate) struct Rule;

impl<'a> TableRule<Region, View<'static>, Terms<'a>> for Rule {
    ghost holds = { λ terms field. IsStanding terms field };

    ghost first = { λ terms. first_view terms };
}
