ghost use Rattle.std.specs.Prelude.{◌≡◌, IfOk};

use crate::field::{Field, Pass};
use crate::first_words::first_words;
use atomic_table::Table;
use border_rows::{Places, Terms};
use no_memory::NoMemory;
use region_step::{Setup, open_regions};
use std::alloc::Global;

impl<'a> Field<'a> {
    ghost use Rattle.std.specs.Prelude.{◌≤◌};
    ghost use Rattle.region_slots.specs.FieldView.{IsPassOf};
    ghost use Rattle.region_slots.specs.Opening.{first_view};

    /// A field of the regions of a setup, and a pass with all of its seats.
    pub fn open(
        alloc: Global,
        setup: &'a Setup<'a>,
        seats: u32,
    ) -> Result<(Field<'a>, Pass), NoMemory>
        requires some { 1 ≤ seats }
        ensures terms { IfOk result (λ both. both.0.terms ≡ record { setup = setup.entry; seats = seats }) }
        ensures knows { IfOk result (λ both. both.1.knows ≡ first_view both.0.terms) }
        ensures belongs { IfOk result (λ both. IsPassOf both.0 both.1) }
    {
        let layout = setup.layout();
        let net = layout.net();
        let _cells = &net.cells;
        let start = setup.start();
        let count = layout.regions() as usize;
        let steps = Vec::with_capacity(alloc, count)?;
        let closed = Vec::with_capacity(alloc, count)?;
        let places = Places::new(alloc, layout)?;
        let words = first_words(alloc, &places, layout, start)?;
        let regions = open_regions(alloc, setup)?;
        let terms = Terms {
            setup,
            seats: seats as u64,
        };
        match Table::new(alloc, &words, regions, &terms) {
            Ok((table, seat)) => Ok((
                Field {
                    layout,
                    places,
                    table,
                    steps,
                    regions: closed,
                },
                Pass { seat },
            )),
            Err(_) => Err(NoMemory),
        }
    }
}
